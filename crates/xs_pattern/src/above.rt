//! Tables of what stands before the last `//` of a pattern (XSLT 1.0, 5.2), so that a node's
//! ancestors are not gone over each time that the node is matched.

ghost use Rattle.std.specs.Prelude.{◌≡◌, ◌<◌, [], IfOk, IfSome, false, get_or, is_some};
ghost use Rattle.std.specs.Prelude.{length, map};
ghost use Rattle.std.specs.List.{range_with_len};
ghost use Rattle.xs_tree.specs.Record.{places};
ghost use Rattle.xs_tree.specs.Shape.{IsTree};
ghost use Rattle.xs_xpath.specs.Exprs.{tree_from};
ghost use Rattle.xs_pattern.specs.Above.{AreEnds, AreNext, IsAbove, has_table, is_below};
ghost use Rattle.xs_pattern.specs.Above.{is_led, is_root_at};
ghost use Rattle.xs_pattern.specs.steps.Climb.{backwards, before_slashes};

use crate::node_tests::is_root;
use crate::paths::{start_of, steps_of};
use crate::steps::{is_descend, stands_on};
use std::alloc::{AllocError, Global};
use xs_eval::node_tests::passes;
use xs_tree::{Axis, Node, Tree, is_flagged};
use xs_xpath::expr::Expr;
use xs_xpath::name::NodeTest;

/// For each node of a tree, whether what stands before the last `//` of a pattern's alternative
/// ends at it or at one of its ancestors. There is no table where nothing stands there, or where it
/// begins with `id` or `key` or has a predicate.
pub fn above_of(
    alloc: Global,
    alternative: &Expr,
    tree: &Tree,
) -> Result<Option<Vec<bool>>, AllocError>
    ensures above { IfOk result (λ table.
        IfSome table (λ t. IsAbove tree.now (tree_from alternative.now) t.items)) }
    ensures some { IfOk result (λ table. is_some table ≡ has_table (tree_from alternative.now)) }
{
    let before = before_slashes(steps_of(alternative));
    if before.is_empty() {
        return Ok(None);
    }
    match ends_of(alloc, start_of(alternative), before, tree)? {
        None => Ok(None),
        Some(ends) => Ok(Some(below(alloc, &ends, tree)?)),
    }
}

// The steps before the last `//`; none, where there is no `//`.
fn before_slashes(steps: &[Expr]) -> &[Expr]
    ensures { backwards result.now ≡ before_slashes (backwards steps.now) }
{
    let mut rest = steps;
    while let Some((step, before)) = rest.split_last() {
        if is_descend(step) {
            return before;
        }
        rest = before;
    }
    rest
}

// For each node, whether a path ends there, by one pass over the nodes for each step. Nothing,
// where the path begins with `id` or `key`, or has a predicate.
fn ends_of(
    alloc: Global,
    start: &Expr,
    steps: &[Expr],
    tree: &Tree,
) -> Result<Option<Vec<bool>>, AllocError>
    ensures ends { IfOk result
        (AreEnds tree.now (tree_from start.now) (backwards steps.now)) }
{
    let mut ends = match beginnings(alloc, start, tree)? {
        None => return Ok(None),
        Some(ends) => ends,
    };
    for step in steps {
        match next_ends(alloc, step, &ends, tree)? {
            None => return Ok(None),
            Some(next) => ends = next,
        }
    }
    Ok(Some(ends))
}

/// For each node, whether a path may begin there.
pub(crate) fn beginnings(
    alloc: Global,
    start: &Expr,
    tree: &Tree,
) -> Result<Option<Vec<bool>>, AllocError>
    ensures ends { IfOk result (AreEnds tree.now (tree_from start.now) []) }
{
    match start {
        Expr::Here => Ok(Some(vec![in alloc; true; tree.len()]?)),
        Expr::Root => Ok(Some(roots(alloc, tree)?)),
        Expr::Number(_) => Ok(None),
        Expr::Literal(_) => Ok(None),
        Expr::Variable(_, _, _) => Ok(None),
        Expr::Call(_, _) => Ok(None),
        Expr::Negative(_, _) => Ok(None),
        Expr::Chain(_, _) => Ok(None),
        Expr::Group(_) => Ok(None),
        Expr::Step(_, _, _) => Ok(None),
        Expr::Descend => Ok(None),
        Expr::Filter(_, _) => Ok(None),
        Expr::Path(_, _) => Ok(None),
    }
}

// For each node, whether it is a root.
fn roots(alloc: Global, tree: &Tree) -> Result<Vec<bool>, AllocError>
    ensures roots { IfOk result (λ t. t.items
        ≡ map (is_root_at tree.now) (places tree.now)) }
    ensures tree { IsTree tree.now }
{
    let mut table = Vec::new(alloc);
    for place in 0..tree.len() as u32 {
        table.push(is_root(tree, Node::at(place)))?;
    }
    Ok(table)
}

// For each node, whether a path ends there with one step more. Nothing, where the step has a
// predicate.
fn next_ends(
    alloc: Global,
    step: &Expr,
    ends: &[bool],
    tree: &Tree,
) -> Result<Option<Vec<bool>>, AllocError>
    ensures next { IfOk result (AreNext tree.now (tree_from step.now) ends.now) }
{
    match step {
        Expr::Descend => Ok(Some(below(alloc, ends, tree)?)),
        Expr::Step(axis, test, predicates) => {
            if !predicates.is_empty() {
                return Ok(None);
            }
            Ok(Some(led(alloc, *axis, test, ends, tree)?))
        }
        Expr::Number(_) => Ok(None),
        Expr::Literal(_) => Ok(None),
        Expr::Variable(_, _, _) => Ok(None),
        Expr::Call(_, _) => Ok(None),
        Expr::Negative(_, _) => Ok(None),
        Expr::Chain(_, _) => Ok(None),
        Expr::Group(_) => Ok(None),
        Expr::Here => Ok(None),
        Expr::Root => Ok(None),
        Expr::Filter(_, _) => Ok(None),
        Expr::Path(_, _) => Ok(None),
    }
}

/// For each node, whether it or one of its ancestors is in a table.
pub(crate) fn below(alloc: Global, table: &[bool], tree: &Tree) -> Result<Vec<bool>, AllocError>
    ensures below { IfOk result (λ t. t.items
        ≡ map (is_below table.now tree.now) (places tree.now)) }
    ensures tree { IsTree tree.now }
{
    let mut found = Vec::new(alloc);
    for place in 0..tree.len() as u32 {
        let is_found = is_below(table, &found, tree, Node::at(place));
        found.push(is_found)?;
    }
    Ok(found)
}

// Whether a node is in a table, or its parent was found to be in it or below a node that is.
fn is_below(table: &[bool], found: &[bool], tree: &Tree, node: Node) -> bool
    requires node { node < length tree.now }
    requires found { found.now ≡ map (is_below table.now tree.now) (range_with_len 0 node) }
    ensures { result ≡ is_below table.now tree.now node }
{
    if is_flagged(table, node) {
        return true;
    }
    match tree.parent(node) {
        None => false,
        Some(parent) => is_flagged(found, parent),
    }
}

// For each node, whether a step without predicates leads to it from a parent in a table.
fn led(
    alloc: Global,
    axis: Axis,
    test: &NodeTest,
    table: &[bool],
    tree: &Tree,
) -> Result<Vec<bool>, AllocError>
    ensures led { IfOk result (λ t. t.items
        ≡ map (is_led axis test.now table.now tree.now) (places tree.now)) }
    ensures tree { IsTree tree.now }
{
    let mut found = Vec::new(alloc);
    for place in 0..tree.len() as u32 {
        found.push(is_led(axis, test, table, tree, Node::at(place)))?;
    }
    Ok(found)
}

// Whether a step without predicates leads to a node from a parent in a table.
fn is_led(axis: Axis, test: &NodeTest, table: &[bool], tree: &Tree, node: Node) -> bool
    requires { node < length tree.now }
    ensures { result ≡ is_led axis test.now table.now tree.now node }
{
    match tree.parent(node) {
        None => false,
        Some(parent) => {
            if !is_flagged(table, parent) {
                return false;
            }
            if !stands_on(axis, tree.kind(node)) {
                return false;
            }
            passes(tree, axis, test, node)
        }
    }
}
