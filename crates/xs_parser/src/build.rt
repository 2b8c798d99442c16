//! Expressions, made of their parts.
ghost use Rattle.std.specs.Prelude.{◌≡◌, None, IfOk};
ghost use Rattle.xs_xpath.specs.Exprs.{tree_from, trees_from};
ghost use Rattle.xs_xpath.specs.Quotients.{called};
ghost use Rattle.xs_xpath.specs.Tree.{atom_tree, chain, descend, filtered, followed, group};
ghost use Rattle.xs_xpath.specs.Tree.{here, path, root, step, trees};
ghost use Rattle.xs_parser.specs.Reading.{negated};

use std::alloc::{AllocError, Global};
use xs_tree::Axis;
use xs_xpath::expr::Expr;
use xs_xpath::name::{Function, NodeTest};
use xs_xpath::token::{Atom, Operator};

/// Operators, and the operands around them.
pub(crate) fn chain(operators: Vec<Operator>, operands: Vec<Expr>) -> Expr
    ensures tree { tree_from result ≡ chain operators.items (trees (trees_from operands.items)) }
{
    Expr::Chain(operators, operands)
}

/// A step of a path.
pub(crate) fn step(axis: Axis, test: NodeTest, predicates: Vec<Expr>) -> Expr
    ensures tree { tree_from result ≡ step axis test (trees (trees_from predicates.items)) }
{
    Expr::Step(axis, test, predicates)
}

/// The step that `//` represents.
pub(crate) fn descend() -> Expr
    ensures tree { tree_from result ≡ descend }
{
    Expr::Descend
}

/// An operand after so many minus signs.
pub(crate) fn negated(alloc: Global, signs: usize, operand: Expr) -> Result<Expr, AllocError>
    ensures tree { IfOk result (λ e. tree_from e ≡ negated signs (tree_from operand)) }
{
    if signs == 0 {
        return Ok(operand);
    }
    Ok(Expr::Negative(signs, Box::new(alloc, operand)?))
}

/// An expression with predicates, if there are any.
pub(crate) fn filtered(alloc: Global, e: Expr, predicates: Vec<Expr>) -> Result<Expr, AllocError>
    ensures tree { IfOk result (λ r. tree_from r
        ≡ filtered (tree_from e) (trees_from predicates.items)) }
{
    if predicates.is_empty() {
        return Ok(e);
    }
    Ok(Expr::Filter(Box::new(alloc, e)?, predicates))
}

/// An expression with steps from it, if there are any.
pub(crate) fn followed(alloc: Global, e: Expr, steps: Vec<Expr>) -> Result<Expr, AllocError>
    ensures tree { IfOk result (λ r. tree_from r
        ≡ followed (tree_from e) (trees_from steps.items)) }
{
    if steps.is_empty() {
        return Ok(e);
    }
    Ok(Expr::Path(Box::new(alloc, e)?, steps))
}

/// A path.
pub(crate) fn path(alloc: Global, start: Expr, steps: Vec<Expr>) -> Result<Expr, AllocError>
    ensures tree { IfOk result (λ e. tree_from e
        ≡ path (tree_from start) (trees (trees_from steps.items))) }
{
    Ok(Expr::Path(Box::new(alloc, start)?, steps))
}

/// Where a relative path begins.
pub(crate) fn here() -> Expr
    ensures tree { tree_from result ≡ here }
{
    Expr::Here
}

/// Where an absolute path begins.
pub(crate) fn root() -> Expr
    ensures tree { tree_from result ≡ root }
{
    Expr::Root
}

/// An expression in round brackets.
pub(crate) fn group(alloc: Global, e: Expr) -> Result<Expr, AllocError>
    ensures tree { IfOk result (λ r. tree_from r ≡ group (tree_from e)) }
{
    Ok(Expr::Group(Box::new(alloc, e)?))
}

/// A call of a function.
pub(crate) fn call(name: Function, arguments: Vec<Expr>) -> Expr
    ensures tree { tree_from result ≡ called name (trees_from arguments.items) }
{
    Expr::call(name, arguments)
}

/// The expression that one token is.
pub(crate) fn from_atom(atom: Atom) -> Expr
    ensures tree { tree_from result ≡ atom_tree atom }
{
    match atom {
        Atom::Number(n) => Expr::Number(n),
        Atom::Literal(text) => Expr::Literal(text),
        Atom::Variable(uri, local) => Expr::Variable(uri, local, None),
    }
}
