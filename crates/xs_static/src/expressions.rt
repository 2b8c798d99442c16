//! The faults of expressions, patterns and value templates.

ghost use Rattle.std.specs.Prelude.{◌≡◌, ◌<◌, ◌^◌, length, IfOk};
ghost use Rattle.std.specs.List.{list_any};
ghost use Rattle.xs_static.specs.Expressions.{is_forbidden_in};
ghost use Rattle.xs_static.specs.steps.InForce.{visible_in};
ghost use Rattle.xs_static.specs.steps.Parsing.{IsFoundFault, findings, found_nothing, found_parts};
ghost use Rattle.xs_static.specs.steps.Parsing.{found_tree};
ghost use Rattle.xs_parser.specs.Faults.{expr_in, pattern_in};
ghost use Rattle.xs_parser.specs.Outcome.{number_of_fault};
ghost use Rattle.xs_parser.specs.Templates.{template_in};
ghost use Rattle.xs_xpath.specs.Exprs.{tree_from, trees_from};

use crate::variables::{Visible, any_unknown, has_unknown, has_unknown_part};
use std::alloc::{AllocError, Global};
use xs_elements::forms::{Form, forbids_current, forbids_key, forbids_variables, is_pattern};
use xs_parser::avt::parse_avt;
use xs_parser::fault::ParseFault;
use xs_parser::parse::{parse_expr, parse_pattern};
use xs_xpath::avt::AvtPart;
use xs_xpath::expr::Expr;
use xs_xpath::scope::Scope;
use xs_xpath::uses::{uses_current, uses_key, uses_variables};

/// What is found in a value that is an expression, a pattern or a value template.
#[derive(Clone, Copy)]
pub(crate) struct Found {
    /// The number of its fault as one, where it has one; then nothing else is found in it.
    pub(crate) fault: Option<u8>,
    /// Whether it has a variable without a visible binding.
    pub(crate) has_unknown: bool,
    /// Whether it holds what it may not.
    pub(crate) has_forbidden: bool,
}

impl Found {
    /// Nothing.
    fn nothing() -> Found
        ensures { result ≡ found_nothing }
    {
        Found {
            fault: None,
            has_unknown: false,
            has_forbidden: false,
        }
    }
}

/// What is found in a text that has a fault.
fn found_fault(fault: ParseFault) -> Result<Found, AllocError>
    ensures { IfOk result (λ found. IsFoundFault fault found) }
{
    match fault {
        ParseFault::Bad { number, .. } => Ok(Found {
            fault: Some(number),
            ..Found::nothing()
        }),
        ParseFault::NoMemory => Err(AllocError),
    }
}

/// Whether an expression holds what a value of this form may not.
fn is_forbidden_in(form: Form, e: &Expr) -> bool
    ensures { result ≡ is_forbidden_in form (tree_from e.now) }
{
    (forbids_variables(form) && uses_variables(e))
        || (forbids_current(form) && uses_current(e))
        || (forbids_key(form) && uses_key(e))
}

/// Whether one of some expressions does.
fn is_forbidden_in_any(form: Form, es: &[Expr]) -> bool
    ensures { result ≡ list_any (is_forbidden_in form) (trees_from es.now) }
{
    for e in es {
        if is_forbidden_in(form, e) {
            return true;
        }
    }
    false
}

/// What is found in an expression.
fn found_in_expression(
    alloc: Global,
    form: Form,
    value: &str,
    scope: &Scope,
    visible: &Visible<'_, '_>,
) -> Result<Found, AllocError>
    requires { length value.now < 2 ^ 32 }
    ensures { IfOk result (λ found. found ≡ found_tree number_of_fault form
        (visible_in visible.now) (expr_in scope.now.pairs.items value.now)) }
{
    match parse_expr(alloc, value, scope) {
        Ok(e) => Ok(Found {
            fault: None,
            has_unknown: has_unknown(&e, visible),
            has_forbidden: is_forbidden_in(form, &e),
        }),
        Err(fault) => found_fault(fault),
    }
}

/// What is found in a pattern.
fn found_in_pattern(
    alloc: Global,
    form: Form,
    value: &str,
    scope: &Scope,
    visible: &Visible<'_, '_>,
) -> Result<Found, AllocError>
    requires { length value.now < 2 ^ 32 }
    ensures { IfOk result (λ found. found ≡ found_tree number_of_fault form
        (visible_in visible.now) (pattern_in scope.now.pairs.items value.now)) }
{
    match parse_pattern(alloc, value, scope) {
        Ok(pattern) => Ok(Found {
            fault: None,
            has_unknown: any_unknown(&pattern.alternatives, visible),
            has_forbidden: is_forbidden_in_any(form, &pattern.alternatives),
        }),
        Err(fault) => found_fault(fault),
    }
}

/// What is found in a value template, where nothing is forbidden.
fn found_in_template(
    alloc: Global,
    value: &str,
    scope: &Scope,
    visible: &Visible<'_, '_>,
) -> Result<Found, AllocError>
    requires { length value.now < 2 ^ 32 }
    ensures { IfOk result (λ found. found ≡ found_parts number_of_fault
        (visible_in visible.now) (template_in scope.now.pairs.items value.now)) }
{
    match parse_avt(alloc, value, scope) {
        Ok(parts) => Ok(Found {
            has_unknown: has_unknown_part(&parts, visible),
            ..Found::nothing()
        }),
        Err(fault) => found_fault(fault),
    }
}

/// What is found in a value of this form. A text of 4 GiB is out of memory, unread.
pub(crate) fn found_in_value(
    alloc: Global,
    form: Form,
    value: &str,
    scope: &Scope,
    visible: &Visible<'_, '_>,
) -> Result<Found, AllocError>
    ensures { IfOk result (λ found. found
        ≡ findings form scope.now.pairs.items value.now (visible_in visible.now)) }
{
    if value.len() > u32::MAX as usize {
        return Err(AllocError);
    }
    match form {
        Form::Expression => found_in_expression(alloc, form, value, scope, visible),
        Form::KeyUse => found_in_expression(alloc, form, value, scope, visible),
        Form::ValueTemplate => found_in_template(alloc, value, scope, visible),
        _ => {
            if is_pattern(form) {
                found_in_pattern(alloc, form, value, scope, visible)
            } else {
                Ok(Found::nothing())
            }
        }
    }
}
