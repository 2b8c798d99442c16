//! Relative paths of one step, and unions of them (XPath 1.0, 2 and 3.3), which take no set apart.

ghost use Rattle.std.specs.Prelude.{◌≡◌, ◌<◌, IfOk, IfSome, MatchOption, None, OnOk, Some, length};
ghost use Rattle.std.specs.List.{All};
ghost use Rattle.xs_trace.specs.Play.{IsStep, IsStepBy};
ghost use Rattle.xs_trace.specs.Run.{limited};
ghost use Rattle.xs_value.specs.Conversion.{IsIn};
ghost use Rattle.xs_xpath.specs.Exprs.{tree_from, trees_from};
ghost use Rattle.xs_xpath.specs.Patterns.{are_unions, is_union};
ghost use Rattle.xs_xpath.specs.Tree.{trees};
ghost use Rattle.xs_eval.specs.steps.Unions.{IsOnlyStep, and_step, are_plain, is_plain};
ghost use Rattle.xs_eval.specs.steps.Unions.{is_union_of_steps, plain_among, plain_step};
ghost use Rattle.xs_eval.specs.steps.Unions.{test_of, united};

use crate::node_tests::find;
use std::alloc::Global;
use xs_eval_spec::context::Context;
use xs_trace::item::Site;
use xs_trace::recorder::{Halt, Tally, tick_several};
use xs_tree::Axis;
use xs_value::node_list::NodeList;
use xs_value::node_set::NodeSet;
use xs_value::value::Value;
use xs_xpath::expr::Expr;
use xs_xpath::name::NodeTest;
use xs_xpath::token::Operator;

/// The step of a relative path that has it alone.
pub(crate) fn only_step<'a>(start: &Expr, steps: &'a [Expr]) -> Option<&'a Expr>
    ensures { IfSome result (λ step. IsOnlyStep start.now steps.now step.now) }
{
    match steps {
        [step] => {
            if start.is_here() && step.as_step().is_some() {
                Some(step)
            } else {
                None
            }
        }
        _ => None,
    }
}

/// Whether an expression is a union of relative paths of one step without predicates.
pub(crate) fn is_union_of_steps(operators: &[Operator], operands: &[Expr]) -> bool
    ensures { result ≡ is_union_of_steps operators.now operands.now }
{
    operators.len() + 1 == operands.len() && are_unions(operators) && are_plain(operands)
}

/// The union of such paths: the nodes of each, with their ticks, in one list.
pub(crate) fn unite_steps<T: Tally>(
    alloc: Global,
    operands: &[Expr],
    context: &Context<'_>,
    site: Site,
    tally: &mut T,
) -> Result<Value, Halt>
    requires node { context.now.node < length context.now.tree }
    ensures reported { IsStep (limited site (united context.now operands.now) (T.state tally.old))
        result (T.state tally.new) }
    ensures kept { T.kept tally.new ≡ T.kept tally.old }
    ensures inside { IfOk result (IsIn context.now.tree) }
{
    let mut found = NodeList::new(alloc);
    for operand in operands {
        add_step(operand, context, &mut found, site, tally)?;
    }
    Ok(Value::Nodes(NodeSet::of_list(found)?))
}

// Adds the nodes of such a path to others, after a tick for each.
fn add_step<T: Tally>(
    operand: &Expr,
    context: &Context<'_>,
    found: &mut NodeList,
    site: Site,
    tally: &mut T,
) -> Result<(), Halt>
    requires node { context.now.node < length context.now.tree }
    requires inside { All (λ k. k < length context.now.tree) found.old }
    ensures reported { IsStepBy (λ _. found.new) (limited site
        (and_step context.now found.old operand.now) (T.state tally.old))
        result (T.state tally.new) }
    ensures kept { T.kept tally.new ≡ T.kept tally.old }
    ensures inside { OnOk result (All (λ k. k < length context.now.tree) found.new) }
{
    match plain_step(operand) {
        None => Ok(()),
        Some(step) => {
            let before = found.len();
            find(step.0, step.1, context, found)?;
            tick_several(tally, site, (found.len() - before) as u64)
        }
    }
}

// Whether all operators are unions.
fn are_unions(operators: &[Operator]) -> bool
    ensures { result ≡ are_unions operators.now }
{
    let mut rest = operators;
    while let Some((first, behind)) = rest.split_first() {
        if !is_union(*first) {
            return false;
        }
        rest = behind;
    }
    true
}

// Whether an operator is a union.
fn is_union(operator: Operator) -> bool
    ensures { result ≡ is_union operator }
{
    matches!(operator, Operator::Union)
}

// Whether all operands are relative paths of one step without predicates.
fn are_plain(operands: &[Expr]) -> bool
    ensures { result ≡ are_plain (trees (trees_from operands.now)) }
{
    let mut rest = operands;
    while let Some((first, behind)) = rest.split_first() {
        if !is_plain(first) {
            return false;
        }
        rest = behind;
    }
    true
}

// Whether an operand is one.
fn is_plain(operand: &Expr) -> bool
    ensures { result ≡ is_plain (plain_step (tree_from operand.now)) }
{
    match plain_step(operand) {
        Some(_step) => true,
        None => false,
    }
}

// The axis and the node test of a relative path of one step without predicates.
fn plain_step(operand: &Expr) -> Option<(Axis, &NodeTest)>
    ensures { MatchOption result (plain_step (tree_from operand.now) ≡ None)
        (λ step. plain_step (tree_from operand.now) ≡ Some (step.0, step.1.now)) }
{
    match operand {
        Expr::Path(start, steps) => plain_among(start, steps),
        Expr::Number(_) => None,
        Expr::Literal(_) => None,
        Expr::Variable(_, _, _) => None,
        Expr::Call(_, _) => None,
        Expr::Negative(_, _) => None,
        Expr::Chain(_, _) => None,
        Expr::Group(_) => None,
        Expr::Here => None,
        Expr::Root => None,
        Expr::Step(_, _, _) => None,
        Expr::Descend => None,
        Expr::Filter(_, _) => None,
    }
}

// The same, of where a path begins and its steps.
fn plain_among<'a>(start: &Expr, steps: &'a [Expr]) -> Option<(Axis, &'a NodeTest)>
    ensures { MatchOption result
        (plain_among (tree_from start.now) (trees (trees_from steps.now)) ≡ None)
        (λ step. plain_among (tree_from start.now) (trees (trees_from steps.now))
        ≡ Some (step.0, step.1.now)) }
{
    if !start.is_here() {
        return None;
    }
    match steps.split_first() {
        None => None,
        Some((step, more)) => match more.split_first() {
            None => test_of(step),
            Some(_) => None,
        },
    }
}

// The axis and the node test of a step without predicates.
fn test_of(step: &Expr) -> Option<(Axis, &NodeTest)>
    ensures { MatchOption result (test_of (tree_from step.now) ≡ None)
        (λ step_of. test_of (tree_from step.now) ≡ Some (step_of.0, step_of.1.now)) }
{
    match step.as_step() {
        None => None,
        Some((axis, test, predicates)) => match predicates.split_first() {
            None => Some((axis, test)),
            Some(_) => None,
        },
    }
}
