//! One step along the axes that go backwards.

ghost use Rattle.std.specs.Prelude.{◌≡◌, ◌<◌, ◌≤◌, [], ◌∷◌, Some, length, MatchOption, IfSome};
ghost use Rattle.xs_tree.specs.Record.{at, is_child};
ghost use Rattle.xs_tree.specs.Axis.{is_ancestor, is_preceding, root_of};
ghost use Rattle.xs_axes.specs.Walks.{IsStepOf, nodes_left, passing_before, IsWalkOf};

use crate::walks::Walk;
use xs_tree::{Node, Tree};

/// The parent of a node, the first of its ancestors.
pub(crate) fn next_ancestor(tree: &Tree, node: Node) -> Option<(Node, Walk)>
    requires { node < length tree.now }
    ensures step { IsStepOf tree.now (passing_before (is_ancestor tree.now node) node) result }
    ensures walk { IfSome result (λ s. IsWalkOf tree.now s.1) }
{
    let parent = tree.parent(node)?;
    Some((parent, Walk::Ancestors(parent)))
}

/// The last child of a node before one of its children.
pub(crate) fn next_sibling_before(tree: &Tree, parent: Node, before: Node) -> Option<(Node, Walk)>
    requires within { before < length tree.now }
    requires child { (at tree.now before).parent ≡ Some parent }
    ensures step { IsStepOf tree.now (passing_before (is_child tree.now parent) before) result }
    ensures walk { IfSome result (λ s. IsWalkOf tree.now s.1) }
{
    let before = sibling_before(tree, parent, before)?;
    Some((before, Walk::SiblingsBefore { parent, before }))
}

// The last child of a node before one that has it as its parent: the node just before is inside it,
// if it is another.
fn sibling_before(tree: &Tree, parent: Node, before: Node) -> Option<Node>
    requires within { before < length tree.now }
    requires child { (at tree.now before).parent ≡ Some parent }
    ensures value { MatchOption result
        (passing_before (is_child tree.now parent) before ≡ [])
        (λ s. passing_before (is_child tree.now parent) before
        ≡ s ∷ passing_before (is_child tree.now parent) s) }
    ensures child { IfSome result (λ s. (at tree.now s).parent ≡ Some parent) }
    ensures before { IfSome result (λ s. s < before) }
{
    let _count = tree.len();
    let mut node = Node::at(before.place() - 1);
    while parent.place() < node.place() {
        let up = tree.parent(node)?;
        if up == parent {
            return if tree.kind(node).is_child() {
                Some(node)
            } else {
                None
            };
        }
        node = up;
    }
    None
}

/// The last node below a place that is before a node in its document and is neither an ancestor of
/// it nor an attribute or namespace node.
pub(crate) fn next_preceding(
    tree: &Tree,
    node: Node,
    root: Node,
    before: u32,
) -> Option<(Node, Walk)>
    requires within { node < length tree.now }
    requires before { before ≤ node }
    requires root { root_of tree.now node ≡ root }
    ensures step { IsStepOf tree.now (passing_before (is_preceding tree.now node) before) result }
    ensures walk { IfSome result (λ s. IsWalkOf tree.now s.1) }
{
    let mut before = before;
    while root.place() < before {
        before -= 1;
        let candidate = Node::at(before);
        if precedes(tree, node, candidate) {
            return Some((candidate, Walk::Preceding { node, root, before }));
        }
    }
    None
}

// Whether a node that is before another in its document is on its preceding axis.
fn precedes(tree: &Tree, node: Node, candidate: Node) -> bool
    requires within { node < length tree.now }
    requires before { candidate < node }
    requires after { root_of tree.now node ≤ candidate }
    ensures value { result ≡ is_preceding tree.now node candidate }
{
    tree.kind(candidate).is_child() && tree.subtree_end(candidate) <= node.place()
}
