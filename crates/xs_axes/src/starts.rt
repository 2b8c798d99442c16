//! Where the walk along an axis begins.

ghost use Rattle.std.specs.Prelude.{◌≡◌, ◌+◌, ◌<◌, None, length, if◌then◌else◌};
ghost use Rattle.xs_tree.specs.Axis.{axis_list};
ghost use Rattle.xs_tree.specs.Kinds.{is_child_kind};
ghost use Rattle.xs_tree.specs.Record.{at};
ghost use Rattle.xs_tree.specs.Shape.{IsTree};
ghost use Rattle.xs_axes.specs.Walks.{nodes_left, IsWalkOf};

use crate::walks::Walk;
use xs_tree::{Axis, Kind, Node, Tree};

/// The walk along an axis, from its first node on (XPath 1.0, 2.2).
pub(crate) fn start(tree: &Tree, node: Node, axis: Axis) -> Walk
    requires { node < length tree.now }
    ensures left { nodes_left tree.now result ≡ axis_list axis tree.now node }
    ensures walk { IsWalkOf tree.now result }
{
    match axis {
        Axis::Child => children(tree, node),
        Axis::Descendant => descendants(tree, node),
        Axis::Parent => parent_alone(tree, node),
        Axis::Ancestor => ancestors(tree, node),
        Axis::FollowingSibling => following_siblings(tree, node),
        Axis::PrecedingSibling => preceding_siblings(tree, node),
        Axis::Following => following(tree, node),
        Axis::Preceding => preceding(tree, node),
        Axis::Attribute => attributes(tree, node),
        Axis::Namespace => namespaces(tree, node),
        Axis::SelfNode => Walk::Single(node),
        Axis::DescendantOrSelf => self_and_descendants(tree, node),
        Axis::AncestorOrSelf => self_and_ancestors(tree, node),
    }
}

// The place after a node.
fn place_after(tree: &Tree, node: Node) -> u32
    requires { node < length tree.now }
    ensures place { result ≡ node + 1 }
    ensures tree { IsTree tree.now }
{
    let _count = tree.len();
    node.place() + 1
}

// Each child is followed by the one where its subtree ends.
fn children(tree: &Tree, node: Node) -> Walk
    requires { node < length tree.now }
    ensures left { nodes_left tree.now result ≡ axis_list Axis.Child tree.now node }
    ensures walk { IsWalkOf tree.now result }
{
    let from = place_after(tree, node);
    Walk::Siblings { parent: node, from }
}

// Only an element has attributes.
fn attributes(tree: &Tree, node: Node) -> Walk
    requires { node < length tree.now }
    ensures left { nodes_left tree.now result ≡ axis_list Axis.Attribute tree.now node }
    ensures walk { IsWalkOf tree.now result }
{
    let from = place_after(tree, node);
    match tree.kind(node) {
        Kind::Element => Walk::Attributes { parent: node, from },
        _ => Walk::Nothing,
    }
}

// They come right after the node.
fn namespaces(tree: &Tree, node: Node) -> Walk
    requires { node < length tree.now }
    ensures left { nodes_left tree.now result ≡ axis_list Axis.Namespace tree.now node }
    ensures walk { IsWalkOf tree.now result }
{
    let from = place_after(tree, node);
    Walk::Namespaces { parent: node, from }
}

// All up to the end of the subtree, except attributes and namespace nodes.
fn descendants(tree: &Tree, node: Node) -> Walk
    requires { node < length tree.now }
    ensures left { nodes_left tree.now result ≡ axis_list Axis.Descendant tree.now node }
    ensures walk { IsWalkOf tree.now result }
{
    let from = place_after(tree, node);
    let end = tree.subtree_end(node);
    Walk::Content { from, end }
}

// The node, and all up to the end of its subtree, except attributes and namespace nodes.
fn self_and_descendants(tree: &Tree, node: Node) -> Walk
    requires { node < length tree.now }
    ensures left { nodes_left tree.now result ≡ axis_list Axis.DescendantOrSelf tree.now node }
    ensures walk { IsWalkOf tree.now result }
{
    let end = tree.subtree_end(node);
    Walk::SelfAndContent { node, end }
}

// Only a root has no parent.
fn parent_alone(tree: &Tree, node: Node) -> Walk
    requires { node < length tree.now }
    ensures left { nodes_left tree.now result ≡ axis_list Axis.Parent tree.now node }
    ensures walk { IsWalkOf tree.now result }
{
    match tree.parent(node) {
        Some(parent) => Walk::Single(parent),
        None => Walk::Nothing,
    }
}

// From parent to parent, up to the root.
fn ancestors(tree: &Tree, node: Node) -> Walk
    requires { node < length tree.now }
    ensures left { nodes_left tree.now result ≡ axis_list Axis.Ancestor tree.now node }
    ensures walk { IsWalkOf tree.now result }
{
    let _count = tree.len();
    Walk::Ancestors(node)
}

// The node, and from parent to parent, up to the root.
fn self_and_ancestors(tree: &Tree, node: Node) -> Walk
    requires { node < length tree.now }
    ensures left { nodes_left tree.now result ≡ axis_list Axis.AncestorOrSelf tree.now node }
    ensures walk { IsWalkOf tree.now result }
{
    let _count = tree.len();
    Walk::SelfAndAncestors(node)
}

// The parent of a node that can be a child; attribute and namespace nodes have no siblings.
fn parent_of_child(tree: &Tree, node: Node) -> Option<Node>
    requires { node < length tree.now }
    ensures parent { result ≡ (if is_child_kind (at tree.now node).kind
        then (at tree.now node).parent else None) }
{
    if tree.kind(node).is_child() {
        tree.parent(node)
    } else {
        None
    }
}

// The children of the parent from the end of the node's subtree on.
fn following_siblings(tree: &Tree, node: Node) -> Walk
    requires { node < length tree.now }
    ensures left { nodes_left tree.now result ≡ axis_list Axis.FollowingSibling tree.now node }
    ensures walk { IsWalkOf tree.now result }
{
    let from = tree.subtree_end(node);
    match parent_of_child(tree, node) {
        Some(parent) => Walk::Siblings { parent, from },
        None => Walk::Nothing,
    }
}

// The children of the parent before the node, the last first.
fn preceding_siblings(tree: &Tree, node: Node) -> Walk
    requires { node < length tree.now }
    ensures left { nodes_left tree.now result ≡ axis_list Axis.PrecedingSibling tree.now node }
    ensures walk { IsWalkOf tree.now result }
{
    let _count = tree.len();
    match parent_of_child(tree, node) {
        Some(parent) => Walk::SiblingsBefore {
            parent,
            before: node,
        },
        None => Walk::Nothing,
    }
}

// What comes after the end of the node's subtree, in its document.
fn following(tree: &Tree, node: Node) -> Walk
    requires { node < length tree.now }
    ensures left { nodes_left tree.now result ≡ axis_list Axis.Following tree.now node }
    ensures walk { IsWalkOf tree.now result }
{
    let root = tree.root_of(node);
    Walk::Content {
        from: tree.subtree_end(node),
        end: tree.subtree_end(root),
    }
}

// What comes before the node in its document and is no ancestor, the last first.
fn preceding(tree: &Tree, node: Node) -> Walk
    requires { node < length tree.now }
    ensures left { nodes_left tree.now result ≡ axis_list Axis.Preceding tree.now node }
    ensures walk { IsWalkOf tree.now result }
{
    let _count = tree.len();
    let root = tree.root_of(node);
    Walk::Preceding {
        node,
        root,
        before: node.place(),
    }
}
