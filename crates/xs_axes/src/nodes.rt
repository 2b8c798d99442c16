//! The nodes of an axis.

ghost use Rattle.std.specs.Prelude.{◌≡◌, ◌<◌, length};
ghost use Rattle.std.specs.Iterator.{YieldsFirst, item_count};
ghost use Rattle.xs_tree.specs.Axis.{axis_list};

use crate::starts::start;
use crate::walks::Walk;
use std::marker::Model;
use xs_tree::{Axis, Node, Tree};

/// The nodes of an axis, in the order of the axis: document order, and turned round where the axis
/// goes backwards (XPath 1.0, 2.2 and 2.4). Takes no memory, when it is made or as it goes on.
pub fn axis_nodes(tree: &Tree, node: Node, axis: Axis) -> AxisNodes<'_>
    requires { node < length tree.now }
    ensures { result ≡ axis_list axis tree.now node }
{
    let walk = start(tree, node, axis);
    AxisNodes { tree, walk }
}

/// The nodes of an axis that are still to come, in the order of the axis.
#[derive(Drop)]
pub struct AxisNodes<'a> {
    tree: &'a Tree,
    walk: Walk,
}

impl<'a> Model for AxisNodes<'a> {
    ghost use Rattle.std.specs.Prelude.{List, ℕ};

    ghost Value = { List ℕ };

    ghost use Rattle.xs_axes.specs.Walks.{nodes_left, IsWalkOf};

    ghost view = { λ a. nodes_left a.tree.now a.walk };

    ghost invariant = { λ a. IsWalkOf a.tree.now a.walk };
}

impl Iterator for AxisNodes<'_> {
    type Item = Node;

    ghost next_gives = { YieldsFirst (λ a. a) };

    ghost remaining = { item_count (λ a. a) };

    fn next(&mut self) -> Option<Node> {
        let (node, walk) = self.walk.step(self.tree)?;
        self.walk = walk;
        Some(node)
    }
}
