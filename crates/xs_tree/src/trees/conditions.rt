//! Whether a node can be added.

ghost use Rattle.std.specs.Prelude.{◌≡◌, ◌<◌, ◌↔◌, length, IsTrue};
ghost use Rattle.xs_tree.specs.Shape.{CanAdd, CanBear, FollowsInOrder, IsOpen, KeepsOrder};

use super::Tree;
use crate::kinds::Kind;
use crate::names::Name;
use crate::nodes::Node;

impl Tree {
    /// Whether a node can be added inside another: whether the conditions of `add` hold. Takes
    /// constant time.
    pub fn can_add(&self, kind: Kind, name: &Option<Name>, text: &str, parent: Node) -> bool
        ensures { IsTrue result ↔ CanAdd self.now kind name.now text.now parent }
    {
        if !can_bear(kind, name, text) {
            return false;
        }
        if parent.place() as usize >= self.len() || !self.kind(parent).can_hold(kind) {
            return false;
        }
        self.is_open(parent) && self.keeps_order(parent, kind)
    }

    // Whether a node is the last one or one of its ancestors.
    fn is_open(&self, n: Node) -> bool
        requires { n < length self.now }
        ensures { IsTrue result ↔ IsOpen self.now n }
    {
        self.nodes[n.place() as usize].end == 0
    }

    // Whether a node of a kind may follow what is in an open node: namespace nodes, then
    // attributes, then children.
    fn keeps_order(&self, parent: Node, kind: Kind) -> bool
        requires within { parent < length self.now }
        requires unended { IsOpen self.now parent }
        ensures { IsTrue result ↔ KeepsOrder self.now parent kind }
    {
        let last = Node::at(self.len() as u32 - 1);
        kind.rank() == 2 || last == parent || self.follows(parent, last, kind)
    }

    // Whether a node is held by another, and one of a kind may follow it there.
    fn follows(&self, parent: Node, last: Node, kind: Kind) -> bool
        requires { last < length self.now }
        ensures { IsTrue result ↔ FollowsInOrder self.now parent last kind }
    {
        self.parent(last) == Some(parent) && self.kind(last).rank() <= kind.rank()
    }
}

// Whether a node of a kind can bear a name and a text.
fn can_bear(kind: Kind, name: &Option<Name>, text: &str) -> bool
    ensures { IsTrue result ↔ CanBear kind name.now text.now }
{
    if kind == Kind::Element && !text.is_empty() {
        return false;
    }
    match name {
        Some(name) => kind.bears_name() && (!kind.has_local_name() || name.is_local()),
        None => !kind.bears_name(),
    }
}
