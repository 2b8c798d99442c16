//! The numbers of all nodes of a tree, counted in one pass (XSLT 1.0, 7.7).

ghost use Rattle.std.specs.Prelude.{◌≡◌, ◌<◌, ◌+◌, ◌^◌, IfOk, IfSome, Some, get_or, if◌then◌else◌};
ghost use Rattle.std.specs.Prelude.{length, map};
ghost use Rattle.xs_tree.specs.Kinds.{is_root_kind};
ghost use Rattle.xs_tree.specs.Record.{at, places};
ghost use Rattle.xs_numbering.specs.Counting.{any_number, has_level, is_alike, kind_number};
ghost use Rattle.xs_numbering.specs.Counting.{sibling_number};
ghost use Rattle.xs_numbering.specs.Passes.{carried_on, counted_on, held_by, is_flagged};
ghost use Rattle.xs_numbering.specs.Passes.{seen_at, seen_with};

use std::alloc::{AllocError, Global};
use xs_tree::{Kind, Node, Tree, is_flagged};

/// For each node the number that `level="any"` counts for it, from tables that flag the nodes that
/// match `count` and those that match `from`.
pub fn any_numbers(
    alloc: Global,
    counts: &[bool],
    from: &[bool],
    tree: &Tree,
) -> Result<Vec<u32>, AllocError>
    ensures { IfOk result (λ t. t.items
        ≡ map (any_number (is_flagged counts.now) (is_flagged from.now) tree.now)
        (places tree.now)) }
{
    let mut numbers = Vec::new(alloc);
    let mut carried = 0;
    for place in 0..tree.len() as u32 {
        let node = Node::at(place);
        let before = before_node(tree, node, carried);
        numbers.push(counted_on(is_flagged(counts, node), before))?;
        carried = carried_on(tree, counts, from, node, before);
    }
    Ok(numbers)
}

/// For each node one more than how many siblings before it a table flags.
pub fn sibling_numbers(alloc: Global, counts: &[bool], tree: &Tree) -> Result<Vec<u32>, AllocError>
    ensures { IfOk result (λ t. t.items
        ≡ map (sibling_number (is_flagged counts.now) tree.now) (places tree.now)) }
{
    let mut numbers = Vec::new(alloc);
    let mut seen = vec![in alloc; 0u32; tree.len()]?;
    for place in 0..tree.len() as u32 {
        let node = Node::at(place);
        let number = next_number(&mut seen, tree, node, is_flagged(counts, node));
        numbers.push(number)?;
    }
    Ok(numbers)
}

/// Whether two nodes have one kind and one expanded name.
pub fn is_alike(tree: &Tree, node: Node, like: Node) -> bool
    requires node { node < length tree.now }
    requires like { like < length tree.now }
    ensures { result ≡ is_alike (at tree.now node) (at tree.now like) }
{
    kind_number(tree.kind(node)) == kind_number(tree.kind(like))
        && tree.uri(node) == tree.uri(like)
        && tree.local(node) == tree.local(like)
}

/// A number for each kind of node.
pub fn kind_number(kind: Kind) -> u32
    ensures { result ≡ kind_number kind }
{
    match kind {
        Kind::Root => 0,
        Kind::Element => 1,
        Kind::Attribute => 2,
        Kind::Space => 3,
        Kind::Text => 4,
        Kind::Comment => 5,
        Kind::Pi => 6,
    }
}

/// The parent of a node that is a child.
pub fn held_by(tree: &Tree, node: Node) -> Option<Node>
    requires { node < length tree.now }
    ensures { result ≡ held_by (at tree.now node) }
{
    if tree.kind(node).is_child() {
        tree.parent(node)
    } else {
        None
    }
}

/// The number of a node among its siblings, by how many children of each node were counted before
/// it; then it is counted itself, if it is to be.
fn next_number(seen: &mut Vec<u32>, tree: &Tree, node: Node, is_counted: bool) -> u32
    requires node { node < length tree.now }
    requires within { IfSome (held_by (at tree.now node)) (λ p. p < length seen.old.items) }
    requires few { seen_at seen.old.items (held_by (at tree.now node)) + 1 < 2 ^ 32 }
    ensures number { result ≡ seen_at seen.old.items (held_by (at tree.now node)) + 1 }
    ensures seen { seen.new.items
        ≡ seen_with is_counted (held_by (at tree.now node)) seen.old.items }
{
    match held_by(tree, node) {
        None => 1,
        Some(parent) => next_child(seen, parent, is_counted),
    }
}

/// The number of the next child of a node, which then is counted, if it is to be.
fn next_child(seen: &mut Vec<u32>, parent: Node, is_counted: bool) -> u32
    requires within { parent < length seen.old.items }
    requires few { get_or seen.old.items parent 0 + 1 < 2 ^ 32 }
    ensures number { result ≡ get_or seen.old.items parent 0 + 1 }
    ensures seen { seen.new.items ≡ seen_with is_counted (Some parent) seen.old.items }
{
    let place = parent.place() as usize;
    let number = seen[place] + 1;
    if is_counted {
        seen[place] = number;
    }
    number
}

/// How many are counted before a node: at the root of a document none.
fn before_node(tree: &Tree, node: Node, carried: u32) -> u32
    requires { node < length tree.now }
    ensures { result ≡ (if is_root_kind (at tree.now node).kind then 0 else carried) }
{
    if tree.kind(node) == Kind::Root {
        0
    } else {
        carried
    }
}

/// One more where a node is counted.
fn counted_on(is_counted: bool, before: u32) -> u32
    requires { before + 1 < 2 ^ 32 }
    ensures { result ≡ counted_on is_counted before }
{
    if is_counted { before + 1 } else { before }
}

/// How many are counted after a node.
fn carried_on(tree: &Tree, counts: &[bool], from: &[bool], node: Node, before: u32) -> u32
    requires node { node < length tree.now }
    requires few { before + 1 < 2 ^ 32 }
    ensures { result ≡ carried_on (has_level (at tree.now node)) (is_flagged from.now node)
        (is_flagged counts.now node) before }
{
    if !has_level(tree, node) {
        return before;
    }
    if is_flagged(from, node) {
        return 0;
    }
    counted_on(is_flagged(counts, node), before)
}

/// Whether a node is no attribute and no namespace node.
pub fn has_level(tree: &Tree, node: Node) -> bool
    requires { node < length tree.now }
    ensures { result ≡ has_level (at tree.now node) }
{
    let kind = tree.kind(node);
    kind != Kind::Attribute && kind != Kind::Space
}
