//! One step along the axes that go forwards.

ghost use Rattle.std.specs.Prelude.{◌≡◌, ◌<◌, ◌≤◌, ◌+◌, [], ◌∷◌, length, MatchOption, IfSome};
ghost use Rattle.xs_tree.specs.Walk.{attributes_from, children_from, namespaces_from};
ghost use Rattle.xs_axes.specs.Walks.{IsStepOf, nodes_left, passing_between, is_content, IsWalkOf};

use crate::walks::Walk;
use xs_tree::{Node, Tree};

/// The first child of a node from a place on. What is inside the child is passed over.
pub(crate) fn next_sibling(tree: &Tree, parent: Node, from: u32) -> Option<(Node, Walk)>
    requires { parent < from }
    ensures step { IsStepOf tree.now (children_from tree.now parent from) result }
    ensures walk { IfSome result (λ s. IsWalkOf tree.now s.1) }
{
    let child = tree.child_from(parent, Node::at(from))?;
    let from = tree.subtree_end(child);
    Some((child, Walk::Siblings { parent, from }))
}

/// The first attribute of a node from a place on.
pub(crate) fn next_attribute(tree: &Tree, parent: Node, from: u32) -> Option<(Node, Walk)>
    requires { parent < from }
    ensures step { IsStepOf tree.now (attributes_from tree.now parent from) result }
    ensures walk { IfSome result (λ s. IsWalkOf tree.now s.1) }
{
    let attribute = tree.attribute_from(parent, Node::at(from))?;
    let from = attribute.place() + 1;
    Some((attribute, Walk::Attributes { parent, from }))
}

/// The first namespace node of a node from a place on.
pub(crate) fn next_namespace(tree: &Tree, parent: Node, from: u32) -> Option<(Node, Walk)>
    requires { parent < from }
    ensures step { IsStepOf tree.now (namespaces_from tree.now parent from) result }
    ensures walk { IfSome result (λ s. IsWalkOf tree.now s.1) }
{
    let found = tree.namespace_from(parent, Node::at(from))?;
    let from = found.place() + 1;
    Some((found, Walk::Namespaces { parent, from }))
}

/// The first node from a place on, and before another, that is no root, attribute or namespace
/// node.
pub(crate) fn next_content(tree: &Tree, from: u32, end: u32) -> Option<(Node, Walk)>
    requires { end ≤ length tree.now }
    ensures step { IsStepOf tree.now (passing_between (is_content tree.now) from end) result }
    ensures walk { IfSome result (λ s. IsWalkOf tree.now s.1) }
{
    for place in from..end {
        let node = Node::at(place);
        if tree.kind(node).is_child() {
            let from = place + 1;
            return Some((node, Walk::Content { from, end }));
        }
    }
    None
}
