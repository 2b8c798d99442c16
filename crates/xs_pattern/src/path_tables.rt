//! Tables of the nodes that match a pattern (XSLT 1.0, 5.2), so that the positions of siblings are
//! counted once for their parent, and not again for each node that is matched.

ghost use Rattle.std.specs.Prelude.{◌≡◌, ◌<◌, ℕ, ◌||◌, ◌==◌, false, get_or, IfOk, IfSome};
ghost use Rattle.std.specs.Prelude.{[], is_some, length};
ghost use Rattle.std.specs.List.{list_any};
ghost use Rattle.xs_tree.specs.Record.{places};
ghost use Rattle.xs_tree.specs.Shape.{IsTree};
ghost use Rattle.xs_eval_spec.specs.Conditions.{IsContext};
ghost use Rattle.xs_eval_spec.specs.Evaluation.{runs_of};
ghost use Rattle.xs_xpath.specs.Exprs.{tree_from, trees_from};
ghost use Rattle.xs_xpath.specs.Patterns.{is_pattern_axis};
ghost use Rattle.xs_pattern_spec.specs.Matching.{selected, step_nodes};
ghost use Rattle.xs_pattern_spec.specs.Predicates.{is_among};
ghost use Rattle.xs_pattern.specs.steps.PathTables.{AreEndsIn, IsNextIn, IsPathTable};
ghost use Rattle.xs_pattern.specs.steps.PathTables.{has_path_table, is_free, is_selected};

use crate::above::{beginnings, below};
use crate::matcher::Matcher;
use crate::node_tests::tested;
use crate::paths::{start_of, steps_of};
use crate::steps::is_descend;
use std::alloc::{AllocError, Global};
use xs_eval_spec::context::Context;
use xs_tree::{Axis, Node, Tree, is_flagged};
use xs_value::keys::NoKeys;
use xs_xpath::expr::Expr;
use xs_xpath::name::NodeTest;
use xs_xpath::scope::Scope;
use xs_xpath::uses::{uses_current, uses_key};

/// For each node of a tree, whether it matches a pattern's alternative, whatever the keys, under
/// the namespace declarations in scope for the pattern. There is no table where the alternative
/// begins with `id` or `key`, or calls `key` or `current`.
///
/// Each step is evaluated once for each parent, so that this takes time linear in the nodes and in
/// the steps, predicates apart.
pub fn path_table(
    alloc: Global,
    alternative: &Expr,
    scope: &Scope,
    tree: &Tree,
) -> Result<Option<Vec<bool>>, AllocError>
    ensures table { IfOk result (λ table. IfSome table (λ t. IsPathTable tree.now
        scope.now.pairs.items (tree_from alternative.now) t.items)) }
    ensures some { IfOk result (λ table.
        is_some table ≡ has_path_table (tree_from alternative.now)) }
{
    if !is_free(alternative) {
        return Ok(None);
    }
    ends_of(
        alloc,
        start_of(alternative),
        steps_of(alternative),
        scope,
        tree,
    )
}

// Whether an expression calls neither `key` nor `current`.
fn is_free(expr: &Expr) -> bool
    ensures { result ≡ is_free (tree_from expr.now) }
{
    if uses_key(expr) {
        return false;
    }
    !uses_current(expr)
}

// For each node, whether a path ends there, from its first step to its last. Nothing, where the
// path begins neither anywhere nor at a root.
fn ends_of(
    alloc: Global,
    start: &Expr,
    steps: &[Expr],
    scope: &Scope,
    tree: &Tree,
) -> Result<Option<Vec<bool>>, AllocError>
    ensures ends { IfOk result (AreEndsIn tree.now scope.now.pairs.items (tree_from start.now)
        (trees_from steps.now)) }
{
    let mut ends = match beginnings(alloc, start, tree)? {
        None => return Ok(None),
        Some(ends) => ends,
    };
    for step in steps {
        ends = next_ends(alloc, step, &ends, scope, tree)?;
    }
    Ok(Some(ends))
}

// For each node, whether a path ends there with one step more.
fn next_ends(
    alloc: Global,
    step: &Expr,
    ends: &[bool],
    scope: &Scope,
    tree: &Tree,
) -> Result<Vec<bool>, AllocError>
    ensures next { IfOk result (λ t. IsNextIn tree.now scope.now.pairs.items
        (tree_from step.now) ends.now t.items) }
{
    if is_descend(step) {
        return below(alloc, ends, tree);
    }
    led(alloc, step, ends, scope, tree)
}

// For each node, whether a step selects it from a parent at which the path ended before.
fn led(
    alloc: Global,
    step: &Expr,
    ends: &[bool],
    scope: &Scope,
    tree: &Tree,
) -> Result<Vec<bool>, AllocError>
    ensures led { IfOk result (λ t. (n : ℕ) → n < length tree.now → get_or t.items n false
        ≡ list_any (is_selected tree.now scope.now.pairs.items (tree_from step.now) ends.now n)
        (places tree.now)) }
    ensures tree { IsTree tree.now }
{
    let mut table = vec![in alloc; false; tree.len()]?;
    for place in 0..tree.len() as u32 {
        let nodes = nodes_from(alloc, step, Node::at(place), ends, scope, tree)?;
        add_nodes(&nodes, &mut table);
    }
    Ok(table)
}

// The nodes that a step selects from a node, if the path ended there before; none otherwise.
fn nodes_from(
    alloc: Global,
    step: &Expr,
    parent: Node,
    ends: &[bool],
    scope: &Scope,
    tree: &Tree,
) -> Result<Vec<Node>, AllocError>
    requires parent { parent < length tree.now }
    ensures nodes { IfOk result (λ nodes. (n : ℕ) → is_among n nodes.items
        ≡ is_selected tree.now scope.now.pairs.items (tree_from step.now) ends.now n parent) }
{
    if !is_flagged(ends, parent) {
        return Ok(Vec::new(alloc));
    }
    let context = Context {
        tree,
        node: parent,
        position: 1,
        size: 1,
        current: parent,
        locals: &[],
        globals: &[],
        scope,
    };
    selected(alloc, step, &context)
}

// The nodes that a step selects from the context node, without any key.
fn selected(alloc: Global, step: &Expr, context: &Context<'_>) -> Result<Vec<Node>, AllocError>
    requires context { IsContext [] context.now }
    ensures nodes { IfOk result (λ ns. ns.items ≡ selected [] (tree_from step.now) context.now) }
{
    match step {
        Expr::Step(axis, test, predicates) => {
            step_nodes(alloc, *axis, test, predicates, context)
        }
        Expr::Number(_) => Ok(Vec::new(alloc)),
        Expr::Literal(_) => Ok(Vec::new(alloc)),
        Expr::Variable(_, _, _) => Ok(Vec::new(alloc)),
        Expr::Call(_, _) => Ok(Vec::new(alloc)),
        Expr::Negative(_, _) => Ok(Vec::new(alloc)),
        Expr::Chain(_, _) => Ok(Vec::new(alloc)),
        Expr::Group(_) => Ok(Vec::new(alloc)),
        Expr::Here => Ok(Vec::new(alloc)),
        Expr::Root => Ok(Vec::new(alloc)),
        Expr::Descend => Ok(Vec::new(alloc)),
        Expr::Filter(_, _) => Ok(Vec::new(alloc)),
        Expr::Path(_, _) => Ok(Vec::new(alloc)),
    }
}

// The same of a step by its parts.
fn step_nodes(
    alloc: Global,
    axis: Axis,
    test: &NodeTest,
    predicates: &[Expr],
    context: &Context<'_>,
) -> Result<Vec<Node>, AllocError>
    requires context { IsContext [] context.now }
    ensures nodes { IfOk result (λ ns. ns.items
        ≡ step_nodes axis test.now (runs_of [] predicates.now) context.now) }
{
    if !is_pattern_axis(axis) {
        return Ok(Vec::new(alloc));
    }
    let nodes = tested(alloc, axis, test, context)?;
    let keys = NoKeys;
    let matcher = Matcher {
        alloc,
        tree: context.tree,
        keys: &keys,
    };
    matcher.all_kept(predicates, nodes, context)
}

// Whether an axis is one of the two that patterns have.
fn is_pattern_axis(axis: Axis) -> bool
    ensures { result ≡ is_pattern_axis axis }
{
    matches!(axis, Axis::Child | Axis::Attribute)
}

// Adds nodes to a table.
fn add_nodes(nodes: &[Node], table: &mut Vec<bool>)
    ensures long { length table.new.items ≡ length table.old.items }
    ensures table { (n : ℕ) → n < length table.old.items → get_or table.new.items n false
        ≡ (get_or table.old.items n false || is_among n nodes.now) }
{
    for node in nodes {
        add_node(*node, table);
    }
}

// Adds a node to a table, if there is a place for it.
fn add_node(node: Node, table: &mut Vec<bool>)
    ensures long { length table.new.items ≡ length table.old.items }
    ensures table { (n : ℕ) → n < length table.old.items → get_or table.new.items n false
        ≡ (get_or table.old.items n false || node == n) }
{
    let place = node.place() as usize;
    if place >= table.len() {
        return;
    }
    table[place] = true;
}
