//! Faults that one lexeme has.
ghost use Rattle.std.specs.Prelude.{◌≡◌, []};
ghost use Rattle.xs_parser.specs.declared.fault.Check.TheVariants.{Literal, Unbound, Unknown};
ghost use Rattle.xs_parser.specs.Faults.{first_fault, has_fault};

use crate::fault::Check;
use crate::resolve::{function_named, is_bound};
use crate::token::{Lexeme, Placed};
use xs_num::reading::read_num;
use xs_xpath::scope::Scope;

/// Whether a lexeme is a call of an unknown function.
fn is_unknown(lexeme: &Lexeme) -> bool
    ensures fault { result ≡ has_fault Unknown [] lexeme.now }
{
    match lexeme {
        Lexeme::Called(name) => function_named(name).is_none(),
        _ => false,
    }
}

/// Whether a lexeme is a number with a fraction or past the limit.
fn is_bad(lexeme: &Lexeme) -> bool
    ensures fault { result ≡ has_fault Literal [] lexeme.now }
{
    match lexeme {
        Lexeme::Number(text) => read_num(text.as_str()).is_err(),
        _ => false,
    }
}

/// Whether a lexeme has an unbound prefix.
fn is_unbound(scope: &Scope, lexeme: &Lexeme) -> bool
    ensures fault { result ≡ has_fault Unbound scope.now.pairs.items lexeme.now }
{
    match lexeme {
        Lexeme::AnyOf(prefix) => !is_bound(scope, prefix),
        Lexeme::Named(name) => !is_bound(scope, &name.prefix),
        Lexeme::Variable(name) => !is_bound(scope, &name.prefix),
        _ => false,
    }
}

/// Whether a lexeme has a fault.
fn has_fault(check: Check, scope: &Scope, lexeme: &Lexeme) -> bool
    ensures fault { result ≡ has_fault check scope.now.pairs.items lexeme.now }
{
    match check {
        Check::Unknown => is_unknown(lexeme),
        Check::Literal => is_bad(lexeme),
        Check::Unbound => is_unbound(scope, lexeme),
    }
}

/// Where the first lexeme with a fault is.
pub(crate) fn first_fault(check: Check, scope: &Scope, lexemes: &[Placed]) -> Option<u32>
    ensures first { result ≡ first_fault check scope.now.pairs.items lexemes.now }
{
    let mut rest = lexemes;
    while let Some((placed, behind)) = rest.split_first() {
        if has_fault(check, scope, &placed.lexeme) {
            return Some(placed.at);
        }
        rest = behind;
    }
    None
}
