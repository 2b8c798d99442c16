//! What is left of a walk along an axis.

ghost use Rattle.std.specs.Prelude.{◌≡◌, [], ◌∷◌, MatchOption, IfSome};
ghost use Rattle.xs_axes.specs.Walks.{IsStepOf, nodes_left, IsWalkOf};

use crate::backward::{next_ancestor, next_preceding, next_sibling_before};
use crate::forward::{next_attribute, next_content, next_namespace, next_sibling};
use xs_tree::{Node, Tree};

/// What is left of a walk along an axis: a few places, from which the nodes are found one after
/// another.
#[derive(Clone, Copy)]
pub(crate) enum Walk {
    /// No node.
    Nothing,
    /// One node.
    Single(Node),
    /// The children of a node from a place on.
    Siblings { parent: Node, from: u32 },
    /// The attributes of a node from a place on.
    Attributes { parent: Node, from: u32 },
    /// The namespace nodes of a node from a place on.
    Namespaces { parent: Node, from: u32 },
    /// The nodes from a place on and before another, except attributes and namespace nodes.
    Content { from: u32, end: u32 },
    /// A node, and the nodes after it and before a place, except attributes and namespace nodes.
    SelfAndContent { node: Node, end: u32 },
    /// The ancestors of a node.
    Ancestors(Node),
    /// A node and its ancestors.
    SelfAndAncestors(Node),
    /// The children of a node before one of them.
    SiblingsBefore { parent: Node, before: Node },
    /// The nodes before a node, from below a place down to the root of its document, except its
    /// ancestors, attributes and namespace nodes.
    Preceding { node: Node, root: Node, before: u32 },
}

impl Walk {
    /// The node that comes next, and what is left of the walk after it; none at the end.
    pub(crate) fn step(self, tree: &Tree) -> Option<(Node, Walk)>
        requires { IsWalkOf tree.now self }
        ensures step { IsStepOf tree.now (nodes_left tree.now self) result }
        ensures walk { IfSome result (λ s. IsWalkOf tree.now s.1) }
    {
        match self {
            Walk::Nothing => None,
            Walk::Single(node) => Some((node, Walk::Nothing)),
            Walk::Siblings { parent, from } => next_sibling(tree, parent, from),
            Walk::Attributes { parent, from } => next_attribute(tree, parent, from),
            Walk::Namespaces { parent, from } => next_namespace(tree, parent, from),
            Walk::Content { from, end } => next_content(tree, from, end),
            Walk::SelfAndContent { node, end } => {
                let _count = tree.len();
                let from = node.place() + 1;
                Some((node, Walk::Content { from, end }))
            }
            Walk::Ancestors(node) => next_ancestor(tree, node),
            Walk::SelfAndAncestors(node) => Some((node, Walk::Ancestors(node))),
            Walk::SiblingsBefore { parent, before } => next_sibling_before(tree, parent, before),
            Walk::Preceding { node, root, before } => next_preceding(tree, node, root, before),
        }
    }
}
