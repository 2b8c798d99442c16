//! Tokens of one or two signs.
ghost use Rattle.std.specs.Prelude.{◌≡◌, ◌<◌, ◌==◌, ◌&&◌, IfSome, Some};
ghost use Rattle.xs_parser.specs.declared.signs.Before.TheVariants.{NoOperand};
ghost use Rattle.xs_parser.specs.declared.token.Token.TheVariants.{Infix};
ghost use Rattle.xs_parser.specs.Lexing.{is_operand, minus_behind, one, star_behind, two};

use crate::token::Token;
use xs_tree::Axis;
use xs_xpath::name::NodeTest;
use xs_xpath::token::Operator;

/// What stands before a token: no operand, a slash, which may be the root, or an operand.
#[derive(Clone, Copy)]
pub enum Before {
    NoOperand,
    MaybeRoot,
    Operand,
}

/// Whether an operand stands before.
pub fn is_operand(before: Before) -> bool
    ensures operand { result ≡ is_operand before }
{
    match before {
        Before::NoOperand => false,
        Before::MaybeRoot => false,
        Before::Operand => true,
    }
}

/// A minus sign, before an operand or between two.
fn minus_behind(before: Before) -> Token
    ensures token { result ≡ minus_behind before }
{
    match before {
        Before::NoOperand => Token::Negate,
        Before::MaybeRoot => Token::Infix(Operator::Minus),
        Before::Operand => Token::Infix(Operator::Minus),
    }
}

/// A star, which multiplies or is a node test.
fn star_behind(before: Before) -> (Token, Before)
    ensures sign { result ≡ star_behind before }
{
    match before {
        Before::NoOperand => (Token::Test(NodeTest::Any), Before::Operand),
        Before::MaybeRoot => (Token::Test(NodeTest::Any), Before::Operand),
        Before::Operand => (Token::Infix(Operator::Times), Before::NoOperand),
    }
}

/// An operator, after which no operand stands.
fn infix(operator: Operator) -> Option<(Token, Before)>
    ensures sign { result ≡ Some (Infix operator, NoOperand) }
{
    Some((Token::Infix(operator), Before::NoOperand))
}

/// Whether two bytes are these.
fn are(b: u8, c: u8, x: u8, y: u8) -> bool
    ensures same { result ≡ (b == x && c == y) }
{
    b == x && c == y
}

/// The token of two bytes, and what it is before the next one.
pub fn two(b: u8, c: u8) -> Option<(Token, Before)>
    ensures sign { result ≡ two b c }
    ensures ascii { IfSome result (λ _. (0 < b) × (b < 128) × (0 < c) × (c < 128)) }
{
    if are(b, c, b'/', b'/') {
        return Some((Token::Slashes, Before::NoOperand));
    }
    if are(b, c, b'.', b'.') {
        return Some((Token::Dots(Axis::Parent), Before::Operand));
    }
    if are(b, c, b'!', b'=') {
        return infix(Operator::Unequal);
    }
    if are(b, c, b'<', b'=') {
        return infix(Operator::LessEqual);
    }
    if are(b, c, b'>', b'=') {
        return infix(Operator::GreaterEqual);
    }
    None
}

/// The token of one byte, and what it is before the next one.
pub fn one(before: Before, b: u8) -> Option<(Token, Before)>
    ensures sign { result ≡ one before b }
    ensures ascii { IfSome result (λ _. (0 < b) × (b < 128)) }
{
    if b == b'(' {
        return Some((Token::Round, Before::NoOperand));
    }
    if b == b')' {
        return Some((Token::EndRound, Before::Operand));
    }
    if b == b'[' {
        return Some((Token::Square, Before::NoOperand));
    }
    if b == b']' {
        return Some((Token::EndSquare, Before::Operand));
    }
    if b == b',' {
        return Some((Token::Comma, Before::NoOperand));
    }
    if b == b'@' {
        return Some((Token::OnAxis(Axis::Attribute), Before::NoOperand));
    }
    if b == b'/' {
        return Some((Token::Slash, Before::MaybeRoot));
    }
    if b == b'.' {
        return Some((Token::Dots(Axis::SelfNode), Before::Operand));
    }
    if b == b'|' {
        return infix(Operator::Union);
    }
    if b == b'+' {
        return infix(Operator::Plus);
    }
    if b == b'=' {
        return infix(Operator::Equal);
    }
    if b == b'<' {
        return infix(Operator::Less);
    }
    if b == b'>' {
        return infix(Operator::Greater);
    }
    if b == b'*' {
        return Some(star_behind(before));
    }
    if b == b'-' {
        return Some((minus_behind(before), Before::NoOperand));
    }
    None
}
