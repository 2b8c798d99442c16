//! Adding an entry, which ends the subtrees that it is not in.

ghost use Rattle.std.specs.Prelude.{◌≡◌, ◌-◌, ◌<◌, [], ◌∷◌, ◌++◌, length, IfOk, OnErr, OnOk};
ghost use Rattle.xs_tree.specs.Closing.{ParentsBefore, Closes};
ghost use Rattle.xs_tree.specs.Limits.{most_nodes};

use crate::entries::Entry;
use crate::nodes::Node;
use std::alloc::AllocError;

/// Adds an entry at the end, and ends the subtrees of the nodes from the last up to its parent.
///
/// Each node is ended once, so adding takes constant time for each node on average.
#[inline(always)]
pub fn keep(nodes: &mut Vec<Entry>, entry: Entry) -> Result<Node, AllocError>
    requires room { length nodes.old.items < most_nodes }
    requires within { entry.parent < length nodes.old.items }
    requires before { ParentsBefore nodes.old.items entry.parent }
    ensures node { IfOk result (λ node. node ≡ length nodes.old.items) }
    ensures kept { OnOk result
        (Closes entry.parent (length nodes.old.items)
        (nodes.old.items ++ entry ∷ []) (length nodes.old.items - 1) nodes.new.items) }
    ensures refused { OnErr result (nodes.new.items ≡ nodes.old.items) }
{
    let place = nodes.len() as u32;
    nodes.push(entry)?;
    end_subtrees(nodes, entry.parent, place);
    Ok(Node::at(place))
}

// Ends the subtrees of the node before a place, of its parent, and so on, but not of a given
// ancestor.
#[inline(always)]
fn end_subtrees(nodes: &mut [Entry], ancestor: u32, place: u32)
    requires some { 0 < place }
    requires within { place < length nodes.old }
    requires before { ParentsBefore nodes.old ancestor }
    ensures closed { Closes ancestor place nodes.old (place - 1) nodes.new }
{
    let mut node = place - 1;
    while node > ancestor {
        let entry = &mut nodes[node as usize];
        entry.end = place;
        node = entry.parent;
    }
}
