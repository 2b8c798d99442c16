//! What an expression refers to: variables, `current()`, `key()`, and `position()` or `last()`.
ghost use Rattle.std.specs.Prelude.{◌≡◌};
ghost use Rattle.xs_xpath.specs.Exprs.{tree_from, trees_from};
ghost use Rattle.xs_xpath.specs.Tree.{trees};
ghost use Rattle.xs_xpath.specs.Uses.{is_current, is_place};
ghost use Rattle.xs_xpath.specs.Uses.{is_sought_call, is_sought_variable, use_any};
ghost use Rattle.xs_xpath.specs.Uses.{has_unbound, uses, uses_current, uses_key};
ghost use Rattle.xs_xpath.specs.Uses.{uses_place, uses_variables};

use crate::expr::Expr;
use crate::name::{Function, Slot};
use crate::pattern::is_key;

/// What is sought in an expression.
#[derive(Clone, Copy)]
pub(crate) enum Sought {
    /// A variable.
    Variable,
    /// A variable that has no slot.
    Unbound,
    /// A call of `current`.
    Current,
    /// A call of `key`.
    Key,
    /// A call of `position` or of `last`.
    Place,
}

/// Whether a variable is what is sought.
fn is_sought_variable(sought: Sought, slot: Option<Slot>) -> bool
    ensures sought { result ≡ is_sought_variable sought slot }
{
    match sought {
        Sought::Variable => true,
        Sought::Unbound => slot.is_none(),
        Sought::Current => false,
        Sought::Key => false,
        Sought::Place => false,
    }
}

/// Whether a function is `current`.
fn is_current(function: Function) -> bool
    ensures current { result ≡ is_current function }
{
    matches!(function, Function::Current)
}

/// Whether a function is `position` or `last`.
fn is_place(function: Function) -> bool
    ensures place { result ≡ is_place function }
{
    matches!(function, Function::Last | Function::Position)
}

/// Whether a call is what is sought.
fn is_sought_call(sought: Sought, function: Function) -> bool
    ensures sought { result ≡ is_sought_call sought function }
{
    match sought {
        Sought::Variable => false,
        Sought::Unbound => false,
        Sought::Current => is_current(function),
        Sought::Key => is_key(function),
        Sought::Place => is_place(function),
    }
}

/// Whether one of some expressions refers to what is sought.
#[cycle(uses)]
fn use_any(sought: Sought, es: &[Expr]) -> bool
    ensures any { result ≡ use_any sought (trees (trees_from es.now)) }
{
    for e in es {
        if uses(sought, e) {
            return true;
        }
    }
    false
}

/// Whether an expression refers to what is sought.
#[cycle(uses)]
pub(crate) fn uses(sought: Sought, e: &Expr) -> bool
    ensures uses { result ≡ uses sought (tree_from e.now) }
{
    match e {
        Expr::Number(_) => false,
        Expr::Literal(_) => false,
        Expr::Variable(_, _, slot) => is_sought_variable(sought, *slot),
        Expr::Call(function, es) => is_sought_call(sought, *function) || use_any(sought, es),
        Expr::Negative(_, e) => uses(sought, e),
        Expr::Chain(_, es) => use_any(sought, es),
        Expr::Group(e) => uses(sought, e),
        Expr::Here => false,
        Expr::Root => false,
        Expr::Step(_, _, es) => use_any(sought, es),
        Expr::Descend => false,
        Expr::Filter(e, es) => uses(sought, e) || use_any(sought, es),
        Expr::Path(e, es) => uses(sought, e) || use_any(sought, es),
    }
}

/// Whether an expression has variables.
pub fn uses_variables(e: &Expr) -> bool
    ensures uses { result ≡ uses_variables (tree_from e.now) }
{
    uses(Sought::Variable, e)
}

/// Whether an expression has variables without a slot.
pub fn has_unbound(e: &Expr) -> bool
    ensures uses { result ≡ has_unbound (tree_from e.now) }
{
    uses(Sought::Unbound, e)
}

/// Whether an expression calls `current`.
pub fn uses_current(e: &Expr) -> bool
    ensures uses { result ≡ uses_current (tree_from e.now) }
{
    uses(Sought::Current, e)
}

/// Whether an expression calls `key`.
pub fn uses_key(e: &Expr) -> bool
    ensures uses { result ≡ uses_key (tree_from e.now) }
{
    uses(Sought::Key, e)
}

/// Whether an expression calls `position` or `last`, for whichever context.
pub fn uses_place(e: &Expr) -> bool
    ensures uses { result ≡ uses_place (tree_from e.now) }
{
    uses(Sought::Place, e)
}
