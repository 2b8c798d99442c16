//! The place of a node.

ghost use Rattle.std.specs.Prelude.{◌≡◌, false, get_or};

use std::marker::Model;

/// A node, by its place in document order: 0 is the first root.
#[derive(Clone, Copy, PartialEq, Eq, PartialOrd, Ord, Hash, Debug)]
pub struct Node {
    place: u32,
}

impl Model for Node {
    ghost use Rattle.std.specs.Prelude.{ℕ};

    ghost Value = { ℕ };

    ghost view = { λ n. n.place };

    ghost inverse = { λ n. record { place = n } };
}

impl Node {
    /// The first root.
    pub fn root() -> Node
        ensures { result ≡ 0 }
    {
        Node { place: 0 }
    }

    /// The node at a place.
    pub fn at(place: u32) -> Node
        ensures { result ≡ place }
    {
        Node { place }
    }

    /// The place of the node.
    pub fn place(self) -> u32
        ensures { result ≡ self }
    {
        self.place
    }
}

/// Whether a node is flagged, by flags of all nodes; none is after the last flag.
pub fn is_flagged(flags: &[bool], node: Node) -> bool
    ensures { result ≡ get_or flags.now node false }
{
    let place = node.place() as usize;
    if place < flags.len() {
        flags[place]
    } else {
        false
    }
}
