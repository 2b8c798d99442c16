//! How deep brackets and minus signs are nested.
ghost use Rattle.std.specs.Prelude.{◌≡◌, ◌≤◌, ◌+◌, false};
ghost use Rattle.xs_parser.specs.declared.token.Lexeme.TheVariants.{Ready};
ghost use Rattle.xs_parser.specs.Faults.{first_deep, has_brackets, inner_brackets, is_deep, nested};

use crate::token::{Lexeme, Placed, Token};
use xs_xpath::name::NodeTest;
use xs_xpath::token::Operator;

/// Whether a node test is written with brackets.
fn has_brackets(test: &NodeTest) -> bool
    ensures brackets { result ≡ has_brackets test.now }
{
    match test {
        NodeTest::Any => false,
        NodeTest::Uri(_) => false,
        NodeTest::Name(_, _) => false,
        NodeTest::Node => true,
        NodeTest::Text => true,
        NodeTest::Comment => true,
        NodeTest::Pi => true,
        NodeTest::Target(_) => true,
    }
}

/// The open brackets and the minus signs in a row after a token.
fn nested_token(token: &Token, brackets: u32, signs: u32) -> (u32, u32)
    requires brackets { brackets ≤ 64 }
    requires signs { signs ≤ 64 }
    ensures nested { result ≡ nested (Ready token.now) brackets signs }
{
    match token {
        Token::Round => (brackets + 1, 0),
        Token::Square => (brackets + 1, 0),
        Token::EndRound => (brackets.saturating_sub(1), 0),
        Token::EndSquare => (brackets.saturating_sub(1), 0),
        Token::Negate => (brackets, signs + 1),
        Token::Infix(operator) => match operator {
            Operator::Minus => (brackets, signs + 1),
            Operator::Or => (brackets, 0),
            Operator::And => (brackets, 0),
            Operator::Equal => (brackets, 0),
            Operator::Unequal => (brackets, 0),
            Operator::Less => (brackets, 0),
            Operator::LessEqual => (brackets, 0),
            Operator::Greater => (brackets, 0),
            Operator::GreaterEqual => (brackets, 0),
            Operator::Plus => (brackets, 0),
            Operator::Times => (brackets, 0),
            Operator::Div => (brackets, 0),
            Operator::FloorDiv => (brackets, 0),
            Operator::CeilingDiv => (brackets, 0),
            Operator::NearestDiv => (brackets, 0),
            Operator::Mod => (brackets, 0),
            Operator::Union => (brackets, 0),
        },
        Token::Call(_) => (brackets, 0),
        Token::Comma => (brackets, 0),
        Token::Slash => (brackets, 0),
        Token::Slashes => (brackets, 0),
        Token::OnAxis(_) => (brackets, 0),
        Token::Test(_) => (brackets, 0),
        Token::Dots(_) => (brackets, 0),
        Token::Atom(_) => (brackets, 0),
    }
}

/// The open brackets and the minus signs in a row after a lexeme.
fn nested(lexeme: &Lexeme, brackets: u32, signs: u32) -> (u32, u32)
    requires brackets { brackets ≤ 64 }
    requires signs { signs ≤ 64 }
    ensures nested { result ≡ nested lexeme.now brackets signs }
    ensures few { (result.0 ≤ 65) × (result.1 ≤ 65) }
{
    match lexeme {
        Lexeme::Ready(token) => nested_token(token, brackets, signs),
        Lexeme::Called(_) => (brackets + 1, 0),
        Lexeme::AnyOf(_) => (brackets, 0),
        Lexeme::Named(_) => (brackets, 0),
        Lexeme::Variable(_) => (brackets, 0),
        Lexeme::Number(_) => (brackets, 0),
    }
}

/// The brackets that are open inside a token.
fn inner_token(token: &Token) -> u32
    ensures inner { result ≡ inner_brackets (Ready token.now) }
    ensures few { result ≤ 1 }
{
    match token {
        Token::Test(test) => { if has_brackets(test) { 1 } else { 0 } }
        _ => 0,
    }
}

/// The brackets that are open inside a lexeme.
fn inner_brackets(lexeme: &Lexeme) -> u32
    ensures inner { result ≡ inner_brackets lexeme.now }
    ensures few { result ≤ 1 }
{
    match lexeme {
        Lexeme::Ready(token) => inner_token(token),
        _ => 0,
    }
}

/// Whether the nesting is over 64.
fn is_deep(brackets: u32, signs: u32, inner: u32) -> bool
    requires brackets { brackets ≤ 65 }
    requires signs { signs ≤ 65 }
    requires inner { inner ≤ 1 }
    ensures deep { result ≡ is_deep (brackets, signs) inner }
    ensures few { result ≡ false → brackets + signs ≤ 64 }
{
    brackets + signs + inner > 64
}

/// Where the nesting is first over 64.
pub fn first_deep(lexemes: &[Placed]) -> Option<u32>
    ensures first { result ≡ first_deep lexemes.now 0 0 }
{
    let mut rest = lexemes;
    let mut brackets = 0;
    let mut signs = 0;
    while let Some((placed, behind)) = rest.split_first() {
        let (more, minus) = nested(&placed.lexeme, brackets, signs);
        if is_deep(more, minus, inner_brackets(&placed.lexeme)) {
            return Some(placed.at);
        }
        brackets = more;
        signs = minus;
        rest = behind;
    }
    None
}
