//! The parser of expressions and patterns.
ghost use Rattle.std.specs.Prelude.{◌≡◌, ◌<◌, ◌^◌, IfOk, length};
ghost use Rattle.xs_xpath.specs.Exprs.{tree_from};
ghost use Rattle.xs_parser.specs.Faults.{expr_in, first_place, least_fault, no_pattern, outcome_in};
ghost use Rattle.xs_parser.specs.Faults.{pattern_in, tokens_in, unless_fault, verdict};
ghost use Rattle.xs_parser.specs.Outcome.{IsParsed, IsPatternParsed, answer_of, number_of_fault};
ghost use Rattle.xs_parser.specs.Outcome.{place_of_fault};
ghost use Rattle.xs_parser.specs.Reading.{tree_of};
ghost use Rattle.xs_parser.specs.declared.fault.ParseFault.TheVariants.{Bad};

use crate::arity::first_wrong;
use crate::fault::{Check, Fault, ParseFault};
use crate::lexer::lexemes;
use crate::nesting::first_deep;
use crate::pattern::{is_pattern, pattern_of};
use crate::read::read;
use crate::resolve::tokens_in;
use crate::scan::first_fault;
use crate::token::Placed;
use std::alloc::{AllocError, Global};
use xs_xpath::expr::Expr;
use xs_xpath::pattern::Pattern;
use xs_xpath::scope::Scope;

/// The least of the faults that are there.
fn least_fault(
    unknown: Option<u32>,
    wrong: Option<u32>,
    bad: Option<u32>,
    deep: Option<u32>,
    other: Option<u32>,
    unbound: Option<u32>,
) -> Option<Fault>
    ensures fault { result ≡ least_fault unknown wrong bad deep other unbound }
{
    if let Some(at) = unknown {
        return Some(Fault::UnknownFunction(at));
    }
    if let Some(at) = wrong {
        return Some(Fault::ArgCount(at));
    }
    if let Some(at) = bad {
        return Some(Fault::BadLiteral(at));
    }
    if let Some(at) = deep {
        return Some(Fault::TooNested(at));
    }
    if let Some(at) = other {
        return Some(Fault::NotPattern(at));
    }
    match unbound {
        None => None,
        Some(at) => Some(Fault::UnboundPrefix(at)),
    }
}

/// The expression, unless there is a fault.
fn unless_fault(fault: Option<Fault>, e: Expr) -> Result<Expr, Fault>
    ensures answer { answer_of result ≡ unless_fault fault (tree_from e) }
{
    match fault {
        None => Ok(e),
        Some(fault) => {
            drop(e);
            Err(fault)
        }
    }
}

/// Where the first lexeme is.
fn first_place(lexemes: &[Placed]) -> u32
    ensures place { result ≡ first_place lexemes.now }
{
    match lexemes.split_first() {
        None => 0,
        Some((placed, _)) => placed.at,
    }
}

/// Where a pattern is wanted: this place, where an expression is none.
fn no_pattern(wanted: bool, at: u32, e: &Expr) -> Option<u32>
    ensures place { result ≡ no_pattern wanted at (tree_from e.now) }
{
    if !wanted {
        return None;
    }
    if is_pattern(e) {
        return None;
    }
    Some(at)
}

/// The expression that lexemes spell, or the least of their faults. The stack is used for 64
/// levels of nesting at the most.
fn verdict(
    alloc: Global,
    wanted: bool,
    scope: &Scope,
    lexemes: Vec<Placed>,
) -> Result<Result<Expr, Fault>, AllocError>
    ensures answer { IfOk result (λ r. answer_of r
        ≡ verdict wanted scope.now.pairs.items lexemes.items
        (tree_of (tokens_in scope.now.pairs.items lexemes.items))) }
{
    let unknown = first_fault(Check::Unknown, scope, &lexemes);
    let wrong = first_wrong(alloc, &lexemes)?;
    let bad = first_fault(Check::Literal, scope, &lexemes);
    let deep = first_deep(&lexemes);
    let unbound = first_fault(Check::Unbound, scope, &lexemes);
    let at = first_place(&lexemes);
    let tokens = tokens_in(alloc, scope, lexemes)?;
    match read(alloc, deep.is_some(), tokens)? {
        None => Ok(Err(Fault::Syntax)),
        Some(e) => {
            let other = no_pattern(wanted, at, &e);
            let fault = least_fault(unknown, wrong, bad, deep, other, unbound);
            Ok(unless_fault(fault, e))
        }
    }
}

/// What a text represents, as an expression or as a pattern, or the least of its faults.
#[tactic(auto, unfolding(crate::specs::Faults::outcome_in))]
pub(crate) fn parse(
    alloc: Global,
    wanted: bool,
    text: &str,
    scope: &Scope,
) -> Result<Result<Expr, Fault>, AllocError>
    requires short { length text.now < 2 ^ 32 }
    ensures answer { IfOk result (λ r. answer_of r
        ≡ outcome_in wanted scope.now.pairs.items text.now) }
{
    match lexemes(alloc, text)? {
        None => Ok(Err(Fault::Syntax)),
        Some(lexemes) => verdict(alloc, wanted, scope, lexemes),
    }
}

/// The number of a fault.
pub(crate) fn number_of_fault(fault: Fault) -> u8
    ensures number { result ≡ number_of_fault fault }
{
    match fault {
        Fault::Syntax => 20,
        Fault::UnknownFunction(_) => 21,
        Fault::ArgCount(_) => 22,
        Fault::BadLiteral(_) => 23,
        Fault::TooNested(_) => 24,
        Fault::NotPattern(_) => 25,
        Fault::UnboundPrefix(_) => 38,
    }
}

/// The place of a fault's first byte.
fn place_of_fault(fault: Fault) -> u32
    ensures place { result ≡ place_of_fault fault }
{
    match fault {
        Fault::Syntax => 0,
        Fault::UnknownFunction(at) => at,
        Fault::ArgCount(at) => at,
        Fault::BadLiteral(at) => at,
        Fault::TooNested(at) => at,
        Fault::NotPattern(at) => at,
        Fault::UnboundPrefix(at) => at,
    }
}

/// A fault as it is answered.
pub(crate) fn reported(fault: Fault) -> ParseFault
    ensures fault { result ≡ Bad (number_of_fault fault) (place_of_fault fault) }
{
    ParseFault::Bad {
        number: number_of_fault(fault),
        at: place_of_fault(fault),
    }
}

/// The expression that a text represents in a scope, or the least of its faults at its first byte.
pub fn parse_expr(alloc: Global, text: &str, scope: &Scope) -> Result<Expr, ParseFault>
    requires short { length text.now < 2 ^ 32 }
    ensures parsed { IsParsed result (expr_in scope.now.pairs.items text.now) }
{
    match parse(alloc, false, text, scope) {
        Err(_) => Err(ParseFault::NoMemory),
        Ok(Ok(e)) => Ok(e),
        Ok(Err(fault)) => Err(reported(fault)),
    }
}

/// The pattern that a text represents in a scope, or the least of its faults at its first byte.
pub fn parse_pattern(alloc: Global, text: &str, scope: &Scope) -> Result<Pattern, ParseFault>
    requires short { length text.now < 2 ^ 32 }
    ensures parsed { IsPatternParsed result (pattern_in scope.now.pairs.items text.now) }
{
    match parse(alloc, true, text, scope) {
        Err(_) => Err(ParseFault::NoMemory),
        Ok(Ok(e)) => match pattern_of(alloc, e) {
            Err(_) => Err(ParseFault::NoMemory),
            Ok(pattern) => Ok(pattern),
        },
        Ok(Err(fault)) => Err(reported(fault)),
    }
}
