//! Numbers of arguments.
ghost use Rattle.std.specs.Prelude.{◌≡◌, ◌≤◌, if◌then◌else◌, nat_lt, suc, Some, IfOk, IfSome};
ghost use Rattle.std.specs.Prelude.{reverse};
ghost use Rattle.xs_parser.specs.declared.token.Lexeme.TheVariants.{Ready};
ghost use Rattle.xs_parser.specs.Faults.{closes, commas_by, fewest, first_wrong};
ghost use Rattle.xs_parser.specs.steps.Scan.{arguments_by};
ghost use Rattle.xs_parser.specs.Faults.{is_comma, is_wrong, opens, spare, takes};

use crate::resolve::function_named;
use crate::token::{Lexeme, Placed, Token};
use std::alloc::{AllocError, Global};
use xs_xpath::name::Function;

/// Whether a token opens a bracket.
fn opens_token(token: &Token) -> bool
    ensures opens { result ≡ opens (Ready token.now) }
{
    match token {
        Token::Round => true,
        Token::Square => true,
        _ => false,
    }
}

/// Whether a lexeme opens a bracket.
fn opens(lexeme: &Lexeme) -> bool
    ensures opens { result ≡ opens lexeme.now }
{
    match lexeme {
        Lexeme::Called(_) => true,
        Lexeme::Ready(token) => opens_token(token),
        _ => false,
    }
}

/// Whether a token closes a bracket.
fn closes_token(token: &Token) -> bool
    ensures closes { result ≡ closes (Ready token.now) }
{
    match token {
        Token::EndRound => true,
        Token::EndSquare => true,
        _ => false,
    }
}

/// Whether a lexeme closes a bracket.
fn closes(lexeme: &Lexeme) -> bool
    ensures closes { result ≡ closes lexeme.now }
{
    match lexeme {
        Lexeme::Ready(token) => closes_token(token),
        _ => false,
    }
}

/// Whether a token is a comma.
fn is_comma_token(token: &Token) -> bool
    ensures comma { result ≡ is_comma (Ready token.now) }
{
    match token {
        Token::Comma => true,
        _ => false,
    }
}

/// Whether a lexeme is a comma.
fn is_comma(lexeme: &Lexeme) -> bool
    ensures comma { result ≡ is_comma lexeme.now }
{
    match lexeme {
        Lexeme::Ready(token) => is_comma_token(token),
        _ => false,
    }
}

/// The fewest arguments of a function.
fn fewest(function: Function) -> u64
    ensures fewest { result ≡ fewest function }
    ensures few { result ≤ 3 }
{
    match function {
        Function::Last => 0,
        Function::Position => 0,
        Function::True => 0,
        Function::False => 0,
        Function::Current => 0,
        Function::LocalName => 0,
        Function::NamespaceUri => 0,
        Function::Name => 0,
        Function::String => 0,
        Function::StringLength => 0,
        Function::NormalizeSpace => 0,
        Function::Number => 0,
        Function::GenerateId => 0,
        Function::Count => 1,
        Function::Id => 1,
        Function::Boolean => 1,
        Function::Not => 1,
        Function::Lang => 1,
        Function::Sum => 1,
        Function::Floor => 1,
        Function::Ceiling => 1,
        Function::Round => 1,
        Function::SystemProperty => 1,
        Function::ElementAvailable => 1,
        Function::FunctionAvailable => 1,
        Function::UnparsedEntityUri => 1,
        Function::StartsWith => 2,
        Function::Contains => 2,
        Function::SubstringBefore => 2,
        Function::SubstringAfter => 2,
        Function::Key => 2,
        Function::Substring => 2,
        Function::Translate => 3,
        Function::Concat => 2,
    }
}

/// How many more than the fewest there may be; of `concat` any number.
fn spare(function: Function) -> Option<u64>
    ensures spare { result ≡ spare function }
    ensures few { IfSome result (λ more. more ≤ 1) }
{
    match function {
        Function::LocalName => Some(1),
        Function::NamespaceUri => Some(1),
        Function::Name => Some(1),
        Function::String => Some(1),
        Function::StringLength => Some(1),
        Function::NormalizeSpace => Some(1),
        Function::Number => Some(1),
        Function::GenerateId => Some(1),
        Function::Substring => Some(1),
        Function::Concat => None,
        Function::Last => Some(0),
        Function::Position => Some(0),
        Function::True => Some(0),
        Function::False => Some(0),
        Function::Current => Some(0),
        Function::Count => Some(0),
        Function::Id => Some(0),
        Function::Boolean => Some(0),
        Function::Not => Some(0),
        Function::Lang => Some(0),
        Function::Sum => Some(0),
        Function::Floor => Some(0),
        Function::Ceiling => Some(0),
        Function::Round => Some(0),
        Function::SystemProperty => Some(0),
        Function::ElementAvailable => Some(0),
        Function::FunctionAvailable => Some(0),
        Function::UnparsedEntityUri => Some(0),
        Function::StartsWith => Some(0),
        Function::Contains => Some(0),
        Function::SubstringBefore => Some(0),
        Function::SubstringAfter => Some(0),
        Function::Key => Some(0),
        Function::Translate => Some(0),
    }
}

/// Whether a function takes so many arguments.
fn takes(function: Function, n: u64) -> bool
    ensures takes { result ≡ takes function n }
{
    let least = fewest(function);
    match spare(function) {
        None => least <= n,
        Some(more) => least <= n && n <= least + more,
    }
}

/// Whether a lexeme is a call with a wrong number of arguments.
fn is_wrong(lexeme: &Lexeme, n: u64) -> bool
    ensures wrong { result ≡ is_wrong lexeme.now n }
{
    match lexeme {
        Lexeme::Called(name) => match function_named(name) {
            None => false,
            Some(function) => !takes(function, n),
        },
        _ => false,
    }
}

/// The first call with a wrong number of arguments, where one lexeme more stands in front.
fn wrong_by(placed: &Placed, n: u64, found: Option<u32>) -> Option<u32>
    ensures found { result ≡ (if is_wrong placed.now.lexeme n then Some placed.now.at else found) }
{
    if is_wrong(&placed.lexeme, n) {
        Some(placed.at)
    } else {
        found
    }
}

/// One comma more, of which ten are counted at the most.
fn one_comma_more(n: u32) -> u32
    ensures more { result ≡ (if nat_lt n 10 then suc n else n) }
{
    if n < 10 { n + 1 } else { n }
}

/// With the commas of one lexeme more; the last of the counts is that of the innermost bracket.
fn commas_by(lexeme: &Lexeme, mut counts: Vec<u32>) -> Result<Vec<u32>, AllocError>
    ensures counts { IfOk result (λ v. reverse v.items
        ≡ commas_by lexeme.now (reverse counts.items)) }
{
    if closes(lexeme) {
        counts.push(0)?;
        return Ok(counts);
    }
    if opens(lexeme) {
        let _ = counts.pop();
        return Ok(counts);
    }
    if !is_comma(lexeme) {
        return Ok(counts);
    }
    match counts.pop() {
        None => Ok(counts),
        Some(n) => {
            counts.push(one_comma_more(n))?;
            Ok(counts)
        }
    }
}

/// The arguments of a call that begins before what is known.
fn arguments_by(counts: &[u32], ends: bool) -> u64
    ensures arguments { result ≡ arguments_by (reverse counts.now) ends }
{
    if ends {
        return 0;
    }
    match counts.split_last() {
        None => 1,
        Some((n, _)) => u64::from(*n) + 1,
    }
}

/// The first call with a wrong number of arguments.
pub fn first_wrong(alloc: Global, lexemes: &[Placed]) -> Result<Option<u32>, AllocError>
    ensures first { IfOk result (λ r. r ≡ first_wrong lexemes.now) }
{
    let mut counts = Vec::new(alloc);
    let mut ends = true;
    let mut found = None;
    let mut rest = lexemes;
    while let Some((placed, before)) = rest.split_last() {
        found = wrong_by(placed, arguments_by(&counts, ends), found);
        ends = closes(&placed.lexeme);
        counts = commas_by(&placed.lexeme, counts)?;
        rest = before;
    }
    Ok(found)
}
