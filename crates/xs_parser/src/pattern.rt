//! Which expressions are patterns (XSLT 1.0, 5.2).
ghost use Rattle.std.specs.Prelude.{◌≡◌, ◌∷◌, [], IfOk};
ghost use Rattle.xs_xpath.specs.Exprs.{tree_from, trees_from};
ghost use Rattle.xs_xpath.specs.Patterns.{alternatives, listed};
ghost use Rattle.xs_xpath.specs.Patterns.{are_pattern_paths, are_pattern_steps, are_unions, is_id};
ghost use Rattle.xs_xpath.specs.Patterns.{is_id_or_key, is_key, is_literal, is_pattern};
ghost use Rattle.xs_xpath.specs.Patterns.{is_pattern_axis, is_pattern_path, is_pattern_start};
ghost use Rattle.xs_xpath.specs.Patterns.{is_pattern_step, is_union};
ghost use Rattle.xs_xpath.specs.Tree.{call, trees};

use std::alloc::{AllocError, Global};
use xs_tree::Axis;
use xs_xpath::expr::Expr;
use xs_xpath::name::Function;
use xs_xpath::pattern::{Pattern, is_key};
use xs_xpath::token::Operator;

/// Whether a pattern's step may be on an axis.
fn is_pattern_axis(axis: Axis) -> bool
    ensures axis { result ≡ is_pattern_axis axis }
{
    match axis {
        Axis::Child => true,
        Axis::Attribute => true,
        Axis::Descendant => false,
        Axis::Parent => false,
        Axis::Ancestor => false,
        Axis::FollowingSibling => false,
        Axis::PrecedingSibling => false,
        Axis::Following => false,
        Axis::Preceding => false,
        Axis::Namespace => false,
        Axis::SelfNode => false,
        Axis::DescendantOrSelf => false,
        Axis::AncestorOrSelf => false,
    }
}

/// Whether a step may stand in a pattern.
fn is_pattern_step(e: &Expr) -> bool
    ensures step { result ≡ is_pattern_step (tree_from e.now) }
{
    match e {
        Expr::Step(axis, _, _) => is_pattern_axis(*axis),
        Expr::Descend => true,
        Expr::Number(_) => false,
        Expr::Literal(_) => false,
        Expr::Variable(_, _, _) => false,
        Expr::Call(_, _) => false,
        Expr::Negative(_, _) => false,
        Expr::Chain(_, _) => false,
        Expr::Group(_) => false,
        Expr::Here => false,
        Expr::Root => false,
        Expr::Filter(_, _) => false,
        Expr::Path(_, _) => false,
    }
}

/// Whether all steps may.
fn are_pattern_steps(steps: &[Expr]) -> bool
    ensures steps { result ≡ are_pattern_steps (trees (trees_from steps.now)) }
{
    let mut rest = steps;
    while let Some((first, behind)) = rest.split_first() {
        if !is_pattern_step(first) {
            return false;
        }
        rest = behind;
    }
    true
}

/// Whether an expression is a literal.
fn is_literal(e: &Expr) -> bool
    ensures literal { result ≡ is_literal (tree_from e.now) }
{
    match e {
        Expr::Literal(_) => true,
        Expr::Number(_) => false,
        Expr::Variable(_, _, _) => false,
        Expr::Call(_, _) => false,
        Expr::Negative(_, _) => false,
        Expr::Chain(_, _) => false,
        Expr::Group(_) => false,
        Expr::Here => false,
        Expr::Root => false,
        Expr::Step(_, _, _) => false,
        Expr::Descend => false,
        Expr::Filter(_, _) => false,
        Expr::Path(_, _) => false,
    }
}

/// Whether a function is `id`.
fn is_id(name: Function) -> bool
    ensures same { result ≡ is_id name }
{
    matches!(name, Function::Id)
}

/// Whether a call is of `id` with a literal or of `key` with two.
fn is_id_or_key_call(name: Function, arguments: &[Expr]) -> bool
    ensures call { result ≡ is_id_or_key (call name (trees (trees_from arguments.now))) }
{
    match arguments.split_first() {
        None => false,
        Some((first, rest)) => match rest.split_first() {
            None => is_id(name) && is_literal(first),
            Some((second, more)) => match more.split_first() {
                None => is_key(name) && is_literal(first) && is_literal(second),
                Some(_) => false,
            },
        },
    }
}

/// Whether a pattern's path may begin at an expression.
fn is_pattern_start(e: &Expr) -> bool
    ensures start { result ≡ is_pattern_start (tree_from e.now) }
{
    match e {
        Expr::Here => true,
        Expr::Root => true,
        Expr::Call(name, arguments) => is_id_or_key_call(*name, arguments),
        Expr::Number(_) => false,
        Expr::Literal(_) => false,
        Expr::Variable(_, _, _) => false,
        Expr::Negative(_, _) => false,
        Expr::Chain(_, _) => false,
        Expr::Group(_) => false,
        Expr::Step(_, _, _) => false,
        Expr::Descend => false,
        Expr::Filter(_, _) => false,
        Expr::Path(_, _) => false,
    }
}

/// Whether an expression is an alternative of a pattern.
fn is_pattern_path(e: &Expr) -> bool
    ensures path { result ≡ is_pattern_path (tree_from e.now) }
{
    match e {
        Expr::Root => true,
        Expr::Path(start, steps) => is_pattern_start(start) && are_pattern_steps(steps),
        Expr::Call(name, arguments) => is_id_or_key_call(*name, arguments),
        Expr::Number(_) => false,
        Expr::Literal(_) => false,
        Expr::Variable(_, _, _) => false,
        Expr::Negative(_, _) => false,
        Expr::Chain(_, _) => false,
        Expr::Group(_) => false,
        Expr::Here => false,
        Expr::Step(_, _, _) => false,
        Expr::Descend => false,
        Expr::Filter(_, _) => false,
    }
}

/// Whether all expressions are.
fn are_pattern_paths(paths: &[Expr]) -> bool
    ensures paths { result ≡ are_pattern_paths (trees (trees_from paths.now)) }
{
    let mut rest = paths;
    while let Some((first, behind)) = rest.split_first() {
        if !is_pattern_path(first) {
            return false;
        }
        rest = behind;
    }
    true
}

/// Whether all operators are unions.
fn are_unions(operators: &[Operator]) -> bool
    ensures unions { result ≡ are_unions operators.now }
{
    let mut rest = operators;
    while let Some((first, behind)) = rest.split_first() {
        if !is_union(*first) {
            return false;
        }
        rest = behind;
    }
    true
}

/// Whether an operator is a union.
fn is_union(operator: Operator) -> bool
    ensures union { result ≡ is_union operator }
{
    match operator {
        Operator::Union => true,
        Operator::Or => false,
        Operator::And => false,
        Operator::Equal => false,
        Operator::Unequal => false,
        Operator::Less => false,
        Operator::LessEqual => false,
        Operator::Greater => false,
        Operator::GreaterEqual => false,
        Operator::Plus => false,
        Operator::Minus => false,
        Operator::Times => false,
        Operator::Div => false,
        Operator::FloorDiv => false,
        Operator::CeilingDiv => false,
        Operator::NearestDiv => false,
        Operator::Mod => false,
    }
}

/// Whether an expression is a pattern.
pub(crate) fn is_pattern(e: &Expr) -> bool
    ensures pattern { result ≡ is_pattern (tree_from e.now) }
{
    match e {
        Expr::Chain(operators, operands) => are_unions(operators) && are_pattern_paths(operands),
        Expr::Number(_) => is_pattern_path(e),
        Expr::Literal(_) => is_pattern_path(e),
        Expr::Variable(_, _, _) => is_pattern_path(e),
        Expr::Call(_, _) => is_pattern_path(e),
        Expr::Negative(_, _) => is_pattern_path(e),
        Expr::Group(_) => is_pattern_path(e),
        Expr::Here => is_pattern_path(e),
        Expr::Root => is_pattern_path(e),
        Expr::Step(_, _, _) => is_pattern_path(e),
        Expr::Descend => is_pattern_path(e),
        Expr::Filter(_, _) => is_pattern_path(e),
        Expr::Path(_, _) => is_pattern_path(e),
    }
}

/// The pattern of one alternative.
fn single(alloc: Global, e: Expr) -> Result<Pattern, AllocError>
    ensures pattern { IfOk result (λ p. trees_from p.alternatives.items ≡ tree_from e ∷ []) }
{
    let mut alternatives = Vec::new(alloc);
    alternatives.push(e)?;
    Ok(Pattern { alternatives })
}

/// The pattern of the operands of unions.
fn several(alternatives: Vec<Expr>) -> Pattern
    ensures pattern { trees_from result.alternatives.items
        ≡ listed (trees (trees_from alternatives.items)) }
{
    Pattern { alternatives }
}

/// The pattern that an expression is, by its alternatives.
pub(crate) fn pattern_of(alloc: Global, e: Expr) -> Result<Pattern, AllocError>
    ensures pattern { IfOk result (λ p. trees_from p.alternatives.items
        ≡ alternatives (tree_from e)) }
{
    match e {
        Expr::Chain(_, operands) => Ok(several(operands)),
        Expr::Number(_) => single(alloc, e),
        Expr::Literal(_) => single(alloc, e),
        Expr::Variable(_, _, _) => single(alloc, e),
        Expr::Call(_, _) => single(alloc, e),
        Expr::Negative(_, _) => single(alloc, e),
        Expr::Group(_) => single(alloc, e),
        Expr::Here => single(alloc, e),
        Expr::Root => single(alloc, e),
        Expr::Step(_, _, _) => single(alloc, e),
        Expr::Descend => single(alloc, e),
        Expr::Filter(_, _) => single(alloc, e),
        Expr::Path(_, _) => single(alloc, e),
    }
}
