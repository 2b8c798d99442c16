//! The text nodes inside a node.

ghost use Rattle.std.specs.Prelude.{◌≡◌, ◌<◌, ◌≤◌, length, IfSome};
ghost use Rattle.std.specs.Iterator.{YieldsFirst, item_count};
ghost use Rattle.xs_tree.specs.Kinds.{is_text_kind};
ghost use Rattle.xs_tree.specs.Record.{at, texts};
ghost use Rattle.xs_tree.specs.Shape.{EndsAt};
ghost use Rattle.xs_tree.specs.Walk.{IsFirstFrom, text_nodes_from};

use super::Tree;
use crate::kinds::Kind;
use crate::nodes::Node;
use std::marker::Model;

impl Tree {
    /// Whether a node is a text node.
    pub(super) fn is_text(&self, node: Node) -> bool
        requires { node < length self.now }
        ensures { result ≡ is_text_kind (at self.now node).kind }
    {
        self.kind(node) == Kind::Text
    }

    // The first text node inside a node from a place on, where the end of the node's subtree is
    // known.
    fn text_node_from(&self, outer: Node, from: u32, end: u32) -> Option<Node>
        requires after { outer < from }
        requires until { from ≤ end }
        requires end { EndsAt self.now outer end }
        ensures value { IsFirstFrom (text_nodes_from self.now outer) from result }
        ensures after { IfSome result (λ k. outer < k) }
        ensures within { IfSome result (λ k. k < length self.now) }
        ensures before { IfSome result (λ k. k < end) }
    {
        let _count = self.len();
        for place in from..end {
            let node = Node::at(place);
            if self.is_text(node) {
                return Some(node);
            }
        }
        None
    }

    /// The text nodes inside a node, in document order (XPath 1.0, 5.7).
    pub fn texts(&self, n: Node) -> Texts<'_>
        requires { n < length self.now }
        ensures texts { result ≡ texts self.now n }
    {
        let end = self.subtree_end(n);
        Texts {
            tree: self,
            outer: n,
            next: n.place() + 1,
            end,
        }
    }
}

/// The text nodes inside a node that are still to come, in document order.
#[derive(Drop)]
pub struct Texts<'a> {
    tree: &'a Tree,
    outer: Node,
    next: u32,
    end: u32,
}

impl<'a> Model for Texts<'a> {
    ghost use Rattle.std.specs.Prelude.{List, ℕ, ◌<◌, ◌≤◌};
    ghost use Rattle.xs_tree.specs.Shape.{EndsAt};
    ghost use Rattle.xs_tree.specs.Walk.{text_nodes_from};

    ghost Value = { List ℕ };

    ghost view = { λ t. text_nodes_from t.tree.now t.outer t.next };

    ghost invariant = { λ t. (t.outer < t.next) × (t.next ≤ t.end)
        × EndsAt t.tree.now t.outer t.end };
}

impl Iterator for Texts<'_> {
    type Item = Node;

    ghost next_gives = { YieldsFirst (λ t. t) };

    ghost remaining = { item_count (λ t. t) };

    fn next(&mut self) -> Option<Node> {
        let text = self.tree.text_node_from(self.outer, self.next, self.end)?;
        self.next = text.place() + 1;
        Some(text)
    }
}
