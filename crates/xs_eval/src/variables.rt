//! The value of a variable (XPath 1.0, 3.1), and what an expression lends.

ghost use Rattle.std.specs.Prelude.{◌≡◌, [], IfSome, List, slice_get};
ghost use Rattle.std.specs.List.{All};
ghost use Rattle.xs_trace.specs.Run.{give};
ghost use Rattle.xs_tree.specs.Record.{Record};
ghost use Rattle.xs_value.specs.Conversion.{IsIn};
ghost use Rattle.xs_value.specs.Tables.{Table};
ghost use Rattle.xs_value.specs.declared.value.Value.TheVariants.{Chars};
ghost use Rattle.xs_eval_spec.specs.Conditions.{IsInIf};
ghost use Rattle.xs_eval_spec.specs.Evaluation.{global, local, run_of, variable};
ghost use Rattle.xs_eval.specs.steps.Variables.{Finds};

use crate::operand::Operand;
use std::alloc::Global;
use xs_eval_spec::context::Context;
use xs_text::TextBuf;
use xs_trace::item::Site;
use xs_trace::recorder::Halt;
use xs_value::value::Value;
use xs_xpath::expr::Expr;
use xs_xpath::name::Slot;

/// The operand that an expression lends: a string literal, or a variable that has a value.
pub(crate) fn lend<'e>(expr: &'e Expr, context: &Context<'e>) -> Option<Operand<'e>>
    requires locals { All (IsIn context.now.tree) context.now.locals }
    requires globals { All (IsInIf context.now.tree) context.now.globals }
    ensures run { (tables : List Table) → IfSome result (λ v.
        run_of tables expr.now context.now ≡ give v) }
    ensures inside { IfSome result (IsIn context.now.tree) }
{
    match expr {
        Expr::Literal(text) => Some(Operand::literal(text)),
        Expr::Variable(_, _, slot) => lend_variable(*slot, context),
        _ => None,
    }
}

// The value of a variable, by its slot, where it has one.
fn lend_variable<'e>(slot: Option<Slot>, context: &Context<'e>) -> Option<Operand<'e>>
    requires locals { All (IsIn context.now.tree) context.now.locals }
    requires globals { All (IsInIf context.now.tree) context.now.globals }
    ensures run { IfSome result (λ v. variable slot context.now ≡ give v) }
    ensures inside { IfSome result (IsIn context.now.tree) }
{
    match slot {
        Some(Slot::Local(place)) => lend_local(context.locals, place),
        Some(Slot::Global(place)) => lend_global(context.globals, place),
        None => None,
    }
}

// The value of a local variable.
fn lend_local(locals: &[Value], place: u32) -> Option<Operand<'_>>
    ensures run { IfSome result (λ v. local (slice_get locals.now place) ≡ give v) }
    ensures inside { (tree : List Record) → All (IsIn tree) locals.now
        → IfSome result (IsIn tree) }
{
    match locals.get(place as usize) {
        Some(value) => Some(Operand::lent(value)),
        None => None,
    }
}

// The value of a global variable that has one.
fn lend_global(globals: &[Option<Value>], place: u32) -> Option<Operand<'_>>
    ensures run { IfSome result (λ v. global place (slice_get globals.now place) ≡ give v) }
    ensures inside { (tree : List Record) → All (IsInIf tree) globals.now
        → IfSome result (IsIn tree) }
{
    match globals.get(place as usize) {
        Some(Some(value)) => Some(Operand::lent(value)),
        Some(None) => None,
        None => None,
    }
}

/// The value of a variable, by its slot.
pub(crate) fn variable(
    alloc: Global,
    slot: Option<Slot>,
    context: &Context<'_>,
    site: Site,
) -> Result<Value, Halt>
    ensures value { Finds site (variable slot context.now) result }
{
    match slot {
        Some(Slot::Local(place)) => local(alloc, context.locals, place, site),
        Some(Slot::Global(place)) => global(alloc, context.globals, place, site),
        None => empty(alloc, site),
    }
}

// The value of a local variable.
fn local(alloc: Global, locals: &[Value], place: u32, site: Site) -> Result<Value, Halt>
    ensures value { Finds site (local (slice_get locals.now place)) result }
{
    match locals.get(place as usize) {
        Some(v) => Ok(v.copy()?),
        None => empty(alloc, site),
    }
}

// The value of a global variable, or the need of it.
fn global(alloc: Global, globals: &[Option<Value>], place: u32, site: Site) -> Result<Value, Halt>
    ensures value { Finds site (global place (slice_get globals.now place)) result }
{
    match globals.get(place as usize) {
        Some(Some(v)) => Ok(v.copy()?),
        Some(None) => Err(Halt::Needs(place, site)),
        None => empty(alloc, site),
    }
}

// No characters, where there is no variable.
fn empty(alloc: Global, site: Site) -> Result<Value, Halt>
    ensures value { Finds site (give (Chars [])) result }
{
    let _site = site;
    Ok(Value::Chars(TextBuf::of(alloc, "")?))
}
