//! The numbers of a node and its ancestors (XSLT 1.0, 7.7), from tables for the whole tree: the
//! numbers among siblings, and the flags of the nodes that match `count` and `from`.

ghost use Rattle.std.specs.Prelude.{◌≡◌, ◌<◌, ◌∷◌, ◌++◌, [], filter, get_or, length, map, take};
ghost use Rattle.std.specs.Prelude.{IfOk, MatchOption, OnOk, not, take_while, true};
ghost use Rattle.xs_tree.specs.declared.axes.Axis.TheVariants.{Ancestor};
ghost use Rattle.xs_tree.specs.Axis.{axis_list};
ghost use Rattle.xs_tree.specs.Record.{places};
ghost use Rattle.xs_numbering.specs.Counting.{counted, multiple, sibling_number, single};
ghost use Rattle.xs_numbering.specs.Passes.{is_flagged};

use std::alloc::{AllocError, Global};
use xs_axes::axis_nodes;
use xs_tree::{Axis, Node, Tree, is_flagged};

/// The list that `level="single"` counts for a node: the number of the first node that matches
/// `count`, from the node upwards.
pub fn single(
    alloc: Global,
    numbers: &[u32],
    counts: &[bool],
    from: &[bool],
    tree: &Tree,
    node: Node,
) -> Result<Vec<u64>, AllocError>
    requires node { node < length tree.now }
    requires numbers { numbers.now
        ≡ map (sibling_number (is_flagged counts.now) tree.now) (places tree.now) }
    ensures { IfOk result (λ v. v.items
        ≡ single (is_flagged counts.now) (is_flagged from.now) tree.now node) }
{
    let mut found = Vec::new(alloc);
    if let Some(first) = first_counted(counts, from, tree, node) {
        add_number(&mut found, numbers, counts, tree, first)?;
    }
    Ok(found)
}

/// The list that `level="multiple"` counts for a node: the numbers of the nodes that match `count`,
/// of the node and its ancestors.
pub fn multiple(
    alloc: Global,
    numbers: &[u32],
    counts: &[bool],
    from: &[bool],
    tree: &Tree,
    node: Node,
) -> Result<Vec<u64>, AllocError>
    requires node { node < length tree.now }
    requires numbers { numbers.now
        ≡ map (sibling_number (is_flagged counts.now) tree.now) (places tree.now) }
    ensures { IfOk result (λ v. v.items
        ≡ multiple (is_flagged counts.now) (is_flagged from.now) tree.now node) }
{
    let mut found = Vec::new(alloc);
    add_number(&mut found, numbers, counts, tree, node)?;
    add_above(&mut found, numbers, counts, from, tree, node)?;
    found.reverse();
    Ok(found)
}

/// The first node that matches `count`, of a node and its ancestors below the nearest one that
/// matches `from`.
fn first_counted(counts: &[bool], from: &[bool], tree: &Tree, node: Node) -> Option<Node>
    requires { node < length tree.now }
    ensures { MatchOption result
        (counted (is_flagged counts.now) (is_flagged from.now) tree.now node ≡ [])
        (λ k. (take 1 (counted (is_flagged counts.now) (is_flagged from.now) tree.now node)
        ≡ k ∷ [])
        × (is_flagged counts.now k ≡ true) × (k < length tree.now)) }
{
    if is_flagged(counts, node) {
        return Some(node);
    }
    for ancestor in axis_nodes(tree, node, Axis::Ancestor) {
        if is_flagged(from, ancestor) {
            return None;
        }
        if is_flagged(counts, ancestor) {
            return Some(ancestor);
        }
    }
    None
}

/// Appends the numbers of the ancestors of a node that match `count`, below the nearest one that
/// matches `from`.
fn add_above(
    out: &mut Vec<u64>,
    numbers: &[u32],
    counts: &[bool],
    from: &[bool],
    tree: &Tree,
    node: Node,
) -> Result<(), AllocError>
    requires node { node < length tree.now }
    requires numbers { numbers.now
        ≡ map (sibling_number (is_flagged counts.now) tree.now) (places tree.now) }
    ensures { OnOk result (out.new.items ≡ out.old.items
        ++ map (sibling_number (is_flagged counts.now) tree.now) (filter (is_flagged counts.now)
        (take_while (λ k. not (is_flagged from.now k)) (axis_list Ancestor tree.now node)))) }
{
    for ancestor in axis_nodes(tree, node, Axis::Ancestor) {
        if is_flagged(from, ancestor) {
            return Ok(());
        }
        add_number(out, numbers, counts, tree, ancestor)?;
    }
    Ok(())
}

/// Appends the number of a node, if it matches `count`.
fn add_number(
    out: &mut Vec<u64>,
    numbers: &[u32],
    counts: &[bool],
    tree: &Tree,
    node: Node,
) -> Result<(), AllocError>
    requires node { node < length tree.now }
    requires numbers { numbers.now
        ≡ map (sibling_number (is_flagged counts.now) tree.now) (places tree.now) }
    ensures { OnOk result (out.new.items ≡ out.old.items
        ++ map (sibling_number (is_flagged counts.now) tree.now)
        (filter (is_flagged counts.now) (node ∷ []))) }
{
    let _tree = tree;
    if is_flagged(counts, node) {
        out.push(number_at(numbers, node))?;
    }
    Ok(())
}

/// The number of a node in a table.
pub fn number_at(numbers: &[u32], node: Node) -> u64
    requires { node < length numbers.now }
    ensures { result ≡ get_or numbers.now node 0 }
{
    u64::from(numbers[node.place() as usize])
}
