//! The children and the attributes of a node.

ghost use Rattle.std.specs.Prelude.{◌≡◌, ◌<◌, length, IfSome};
ghost use Rattle.std.specs.Iterator.{YieldsFirst, item_count};
ghost use Rattle.xs_tree.specs.Limits.{most_nodes};
ghost use Rattle.xs_tree.specs.Record.{attributes, children, is_attribute, is_child};
ghost use Rattle.xs_tree.specs.Shape.{HasParentFrom};
ghost use Rattle.xs_tree.specs.Walk.{IsFirstFrom, attributes_from, children_from};

use super::Tree;
use crate::kinds::Kind;
use crate::nodes::Node;
use std::marker::Model;

impl Tree {
    // Whether a node is a child of another.
    fn is_child(&self, parent: Node, node: Node) -> bool
        requires { node < length self.now }
        ensures value { result ≡ is_child self.now parent node }
    {
        self.parent(node) == Some(parent) && self.kind(node).is_child()
    }

    // Whether a node is an attribute of another.
    fn is_attribute(&self, parent: Node, node: Node) -> bool
        requires { node < length self.now }
        ensures value { result ≡ is_attribute self.now parent node }
    {
        self.parent(node) == Some(parent) && self.kind(node) == Kind::Attribute
    }

    /// The first child of a node from a place on.
    pub fn child_from(&self, parent: Node, from: Node) -> Option<Node>
        requires { parent < from }
        ensures value { IsFirstFrom (children_from self.now parent) from result }
        ensures within { IfSome result (λ child. child < length self.now) }
        ensures after { IfSome result (λ child. parent < child) }
        ensures few { IfSome result (λ child. child < most_nodes) }
    {
        for place in from.place()..self.len() as u32 {
            let node = Node::at(place);
            if self.is_child(parent, node) {
                return Some(node);
            }
            if !self.begins_inside(parent, node) {
                return None;
            }
        }
        None
    }

    /// The first attribute of a node from a place on.
    pub fn attribute_from(&self, parent: Node, from: Node) -> Option<Node>
        requires { parent < from }
        ensures value { IsFirstFrom (attributes_from self.now parent) from result }
        ensures within { IfSome result (λ child. child < length self.now) }
        ensures after { IfSome result (λ child. parent < child) }
        ensures few { IfSome result (λ child. child < most_nodes) }
    {
        for place in from.place()..self.len() as u32 {
            let node = Node::at(place);
            if self.is_attribute(parent, node) {
                return Some(node);
            }
            if self.kind(node).rank() == 2 {
                return None;
            }
        }
        None
    }

    /// The children of a node, in document order (XPath 1.0, 5.1 and 5.2).
    pub fn children(&self, n: Node) -> Children<'_>
        requires { n < length self.now }
        ensures children { result ≡ children self.now n }
    {
        let _count = self.len();
        Children {
            tree: self,
            parent: n,
            next: Node::at(n.place() + 1),
        }
    }

    /// The attributes of a node, in document order (XPath 1.0, 5.3).
    pub fn attributes(&self, n: Node) -> Attributes<'_>
        requires { n < length self.now }
        ensures attributes { result ≡ attributes self.now n }
    {
        let _count = self.len();
        Attributes {
            tree: self,
            parent: n,
            next: Node::at(n.place() + 1),
        }
    }
}

/// The children of a node that are still to come, in document order.
#[derive(Drop)]
pub struct Children<'a> {
    tree: &'a Tree,
    parent: Node,
    next: Node,
}

impl<'a> Model for Children<'a> {
    ghost use Rattle.std.specs.Prelude.{List, ℕ, ◌<◌};
    ghost use Rattle.xs_tree.specs.Walk.{children_from};

    ghost Value = { List ℕ };

    ghost view = { λ c. children_from c.tree.now c.parent c.next };

    ghost invariant = { λ c. c.parent < c.next };
}

impl Iterator for Children<'_> {
    type Item = Node;

    ghost next_gives = { YieldsFirst (λ c. c) };

    ghost remaining = { item_count (λ c. c) };

    fn next(&mut self) -> Option<Node> {
        let child = self.tree.child_from(self.parent, self.next)?;
        self.next = Node::at(self.tree.subtree_end(child));
        Some(child)
    }
}

/// The attributes of a node that are still to come, in document order.
#[derive(Drop)]
pub struct Attributes<'a> {
    tree: &'a Tree,
    parent: Node,
    next: Node,
}

impl<'a> Model for Attributes<'a> {
    ghost use Rattle.std.specs.Prelude.{List, ℕ, ◌<◌};
    ghost use Rattle.xs_tree.specs.Walk.{attributes_from};

    ghost Value = { List ℕ };

    ghost view = { λ a. attributes_from a.tree.now a.parent a.next };

    ghost invariant = { λ a. a.parent < a.next };
}

impl Iterator for Attributes<'_> {
    type Item = Node;

    ghost next_gives = { YieldsFirst (λ a. a) };

    ghost remaining = { item_count (λ a. a) };

    fn next(&mut self) -> Option<Node> {
        let attribute = self.tree.attribute_from(self.parent, self.next)?;
        self.next = Node::at(attribute.place() + 1);
        Some(attribute)
    }
}
