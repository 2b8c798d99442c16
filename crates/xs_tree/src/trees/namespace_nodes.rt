//! The namespace nodes of a node.

ghost use Rattle.std.specs.Prelude.{◌≡◌, ◌<◌, length, IfSome};
ghost use Rattle.std.specs.Iterator.{YieldsFirst, item_count};
ghost use Rattle.xs_tree.specs.Limits.{most_nodes};
ghost use Rattle.xs_tree.specs.Record.{is_namespace, namespaces};
ghost use Rattle.xs_tree.specs.Walk.{IsFirstFrom, namespaces_from};

use super::Tree;
use crate::kinds::Kind;
use crate::nodes::Node;
use std::marker::Model;

impl Tree {
    // Whether a node is a namespace node of another.
    fn is_namespace(&self, parent: Node, node: Node) -> bool
        requires { node < length self.now }
        ensures value { result ≡ is_namespace self.now parent node }
    {
        self.parent(node) == Some(parent) && self.kind(node) == Kind::Space
    }

    /// The first namespace node of a node from a place on: the node at that place, if any, as they
    /// come first of all that is inside a node.
    pub fn namespace_from(&self, parent: Node, from: Node) -> Option<Node>
        requires { parent < from }
        ensures value { IsFirstFrom (namespaces_from self.now parent) from result }
        ensures within { IfSome result (λ n. n < length self.now) }
        ensures after { IfSome result (λ n. parent < n) }
        ensures few { IfSome result (λ n. n < most_nodes) }
    {
        if self.len() <= from.place() as usize {
            return None;
        }
        if !self.is_namespace(parent, from) {
            return None;
        }
        Some(from)
    }

    /// The namespace nodes of a node, in document order (XPath 1.0, 5.4).
    pub fn namespaces(&self, n: Node) -> Namespaces<'_>
        requires { n < length self.now }
        ensures namespaces { result ≡ namespaces self.now n }
    {
        let _count = self.len();
        Namespaces {
            tree: self,
            parent: n,
            next: Node::at(n.place() + 1),
        }
    }
}

/// The namespace nodes of a node that are still to come, in document order.
#[derive(Drop)]
pub struct Namespaces<'a> {
    tree: &'a Tree,
    parent: Node,
    next: Node,
}

impl<'a> Model for Namespaces<'a> {
    ghost use Rattle.std.specs.Prelude.{List, ℕ, ◌<◌};
    ghost use Rattle.xs_tree.specs.Walk.{namespaces_from};

    ghost Value = { List ℕ };

    ghost view = { λ s. namespaces_from s.tree.now s.parent s.next };

    ghost invariant = { λ s. s.parent < s.next };
}

impl Iterator for Namespaces<'_> {
    type Item = Node;

    ghost next_gives = { YieldsFirst (λ s. s) };

    ghost remaining = { item_count (λ s. s) };

    fn next(&mut self) -> Option<Node> {
        let found = self.tree.namespace_from(self.parent, self.next)?;
        self.next = Node::at(found.place() + 1);
        Some(found)
    }
}
