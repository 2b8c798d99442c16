//! Stripping text nodes.

ghost use Rattle.std.specs.Prelude.{◌≡◌, ◌+◌, ◌<◌, ◌≤◌, IfOk, OnErr, OnOk};
ghost use Rattle.std.specs.Prelude.{length, map};
ghost use Rattle.std.specs.List.{range_with_len};
ghost use Rattle.xs_tree.specs.Limits.{most_nodes};
ghost use Rattle.xs_tree.specs.Stripping.{new_place, numbers_without, stays, without};

use super::Tree;
use crate::compaction::{compact_entries, compact_numbers};
use crate::nodes::{Node, is_flagged};
use std::alloc::AllocError;

impl Tree {
    /// Removes the flagged text nodes, in time linear in the tree (XSLT 1.0, 3.4).
    ///
    /// The nodes that stay are moved together in place, and their parents are renumbered. Other
    /// nodes stay even where they are flagged.
    pub fn strip(&mut self, flagged: &[bool]) -> Result<(), AllocError>
        ensures stripped { OnOk result (self.new ≡ without flagged.now self.old) }
        ensures refused { OnErr result (self.new ≡ self.old) }
    {
        let places = self.new_places(flagged)?;
        compact_entries(&mut self.nodes, &places);
        Ok(())
    }

    /// Leaves out of a list with a number for each node, as its line, those of the nodes that
    /// `strip` removes.
    pub fn strip_numbers(&self, flagged: &[bool], numbers: &mut Vec<u32>) -> Result<(), AllocError>
        requires each { length numbers.old.items ≡ length self.now }
        ensures stripped { OnOk result
            (numbers.new.items ≡ numbers_without flagged.now self.now numbers.old.items) }
        ensures refused { OnErr result (numbers.new.items ≡ numbers.old.items) }
    {
        let places = self.new_places(flagged)?;
        compact_numbers(numbers, &places);
        Ok(())
    }

    // The new places of all nodes, and after them the number of nodes that stay.
    fn new_places(&self, flagged: &[bool]) -> Result<Vec<u32>, AllocError>
        ensures places { IfOk result (λ places. places.items
            ≡ map (new_place flagged.now self.now) (range_with_len 0 (length self.now + 1))) }
    {
        let mut places = Vec::new(*self.nodes.allocator());
        let mut next = 0;
        for place in 0..self.len() as u32 {
            places.push(next)?;
            next = self.place_after(flagged, Node::at(place), next);
        }
        places.push(next)?;
        Ok(places)
    }

    // The new place of what follows a node that has a new place itself.
    fn place_after(&self, flagged: &[bool], node: Node, place: u32) -> u32
        requires within { node < length self.now }
        requires place { place ≡ new_place flagged.now self.now node }
        requires few { place ≤ node }
        requires small { node < most_nodes }
        ensures next { result ≡ new_place flagged.now self.now (node + 1) }
        ensures few { result ≤ node + 1 }
    {
        if self.stays(flagged, node) {
            place + 1
        } else {
            place
        }
    }

    // Whether a node stays: whether it is not flagged, or no text node.
    fn stays(&self, flagged: &[bool], node: Node) -> bool
        requires { node < length self.now }
        ensures { result ≡ stays flagged.now self.now node }
    {
        !(is_flagged(flagged, node) && self.is_text(node))
    }
}
