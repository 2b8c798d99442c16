//! The slots of local variables (XSLT 1.0, 11.5).

ghost use Rattle.std.specs.Prelude.{◌≡◌, ◌+◌, ◌<◌, ◌==◌, ◌&&◌, ℕ, List, Some, false, true, IfOk};
ghost use Rattle.std.specs.Prelude.{OnOk, length, map, if◌then◌else◌};
ghost use Rattle.xs_compile.specs.Slots.{local_slot, visible_at};
ghost use Rattle.xs_structure.specs.Standing.{standing_of};
ghost use Rattle.xs_compile.specs.steps.Locals.{AreCounts, entry_slot, slot_among};
ghost use Rattle.xs_compile.specs.Locals.{AreLocals, IsApart, entry_in};
ghost use Rattle.xs_elements.specs.Nodes.{is_same_name, name_data};
ghost use Rattle.xs_elements.specs.Reading.{is_seen};
ghost use Rattle.xs_elements.specs.Tags.{tag_of};
ghost use Rattle.xs_structure.specs.Bindings.{is_local};
ghost use Rattle.xs_tree.specs.Record.{places};

use crate::counted::following;
use std::alloc::{AllocError, Global};
use std::collections::HashMap;
use xs_elements::scope::{Expanded, own_name};
use xs_elements::tags::Tag;
use xs_structure::bindings::is_local;
use xs_structure::standing::{Standing, standing_in};
use xs_tree::{InputHashes, Node, Tree};
use xs_xpath::name::Slot;

/// From where on a local binding is visible, and its slot.
#[derive(Clone, Copy)]
pub(crate) struct Local {
    /// The place behind its element.
    pub(crate) from: u32,
    /// The number of the local bindings that are visible at it.
    pub(crate) slot: u32,
}

impl Local {
    /// The slot, where a place is behind the binding.
    fn slot_from(&self, place: u32) -> Option<Slot>
        ensures { result ≡ entry_slot place self.now }
    {
        if place < self.from {
            return None;
        }
        Some(Slot::Local(self.slot))
    }
}

/// The local bindings of a module, by their parents and their names: no two bindings in one
/// element have the same name, since one would shadow the other.
#[derive(Drop)]
pub(crate) struct Locals<'m> {
    /// The bindings, by the parent and the name.
    pub(crate) entries: HashMap<(u32, Expanded<'m>), Local, InputHashes>,
}

/// How many local bindings are visible at a node, by how many are visible to the next child of
/// each node before it.
fn visible_at(counts: &[u32], tree: &Tree, n: Node) -> u32
    requires inside { n < length tree.now }
    requires counts { AreCounts tree.now n counts.now }
    ensures { result ≡ length (visible_at tree.now n) }
{
    let _count = tree.len();
    match tree.parent(n) {
        Some(parent) => counts[parent.place() as usize],
        None => 0,
    }
}

/// The next node comes, at which so many local bindings are visible.
fn count(
    counts: &mut Vec<u32>,
    tree: &Tree,
    n: Node,
    visible: u32,
    binds: bool,
) -> Result<(), AllocError>
    requires inside { n < length tree.now }
    requires counts { AreCounts tree.now n counts.old.items }
    requires visible { visible ≡ length (visible_at tree.now n) }
    requires binds { binds ≡ is_local tree.now n }
    ensures { OnOk result (AreCounts tree.now (n + 1) counts.new.items) }
{
    let _count = tree.len();
    counts.push(visible)?;
    if !binds {
        return Ok(());
    }
    match tree.parent(n) {
        Some(parent) => {
            counts[parent.place() as usize] = following(visible)?;
            Ok(())
        }
        None => Ok(()),
    }
}

impl<'m> Locals<'m> {
    /// The local bindings of a module, in a table with these hashes.
    pub(crate) fn of(
        alloc: Global,
        hashes: InputHashes,
        tree: &'m Tree,
        standings: &[Standing],
    ) -> Result<Locals<'m>, AllocError>
        requires { standings.now ≡ map (standing_of tree.now) (places tree.now) }
        ensures { IfOk result (AreLocals tree.now (length tree.now)) }
    {
        let mut locals = Locals {
            entries: HashMap::with_hasher(alloc, hashes),
        };
        let mut counts = Vec::new(alloc);
        for place in 0..tree.len() as u32 {
            let n = Node::at(place);
            let standing = standing_in(standings, tree, n);
            locals.pass(tree, n, standing.tag, standing.is_seen, &mut counts)?;
        }
        Ok(locals)
    }

    /// The next node comes.
    fn pass(
        &mut self,
        tree: &'m Tree,
        n: Node,
        tag: Tag,
        seen: bool,
        counts: &mut Vec<u32>,
    ) -> Result<(), AllocError>
        requires inside { n < length tree.now }
        requires tag { tag ≡ tag_of tree.now n }
        requires seen { seen ≡ is_seen tree.now n }
        requires locals { AreLocals tree.now n self.old }
        requires counts { AreCounts tree.now n counts.old.items }
        ensures locals { OnOk result (AreLocals tree.now (n + 1) self.new) }
        ensures counts { OnOk result (AreCounts tree.now (n + 1) counts.new.items) }
    {
        let binds = is_local(tree, n, tag, seen);
        let visible = visible_at(counts, tree, n);
        count(counts, tree, n, visible, binds)?;
        if binds {
            self.pass_binding(tree, n, visible)
        } else {
            self.pass_other(tree, n)
        }
    }

    /// The next node is no local binding.
    fn pass_other(&mut self, tree: &Tree, n: Node) -> Result<(), AllocError>
        requires inside { n < length tree.now }
        requires none { is_local tree.now n ≡ false }
        requires locals { AreLocals tree.now n self.old }
        ensures { OnOk result (AreLocals tree.now (n + 1) self.new) }
    {
        let _count = tree.len();
        let _entries = self.entries.len();
        Ok(())
    }

    /// The next node is a local binding, at which so many others are visible.
    fn pass_binding(&mut self, tree: &'m Tree, n: Node, visible: u32) -> Result<(), AllocError>
        requires inside { n < length tree.now }
        requires local { is_local tree.now n ≡ true }
        requires visible { visible ≡ length (visible_at tree.now n) }
        requires locals { AreLocals tree.now n self.old }
        ensures { OnOk result (AreLocals tree.now (n + 1) self.new) }
    {
        let from = tree.subtree_end(n);
        let slot = visible;
        match tree.parent(n) {
            Some(parent) => match own_name(tree, n) {
                Some(name) => {
                    self.enter(parent.place(), name, Local { from, slot })?;
                    Ok(())
                }
                None => Ok(()),
            },
            None => Ok(()),
        }
    }

    /// A binding of a name in an element.
    fn enter(&mut self, parent: u32, name: Expanded<'m>, entry: Local) -> Result<(), AllocError>
        ensures { OnOk result ((q : ℕ) (uri local : List ℕ) → entry_in self.new q uri local
            ≡ (if parent == q && is_same_name (uri, local) (name_data name.entry)
            then Some entry else entry_in self.old q uri local)) }
    {
        self.entries.insert((parent, name), entry)?;
        Ok(())
    }

    /// The slot of the binding of a name that is a child of an element and visible at a place.
    fn slot_in(&self, parent: Node, place: u32, uri: &str, local: &str) -> Option<Slot>
        ensures { result ≡ slot_among self.now parent place uri.now local.now }
    {
        match self.entries.get(&(parent.place(), (uri, local))) {
            Some(entry) => entry.slot_from(place),
            None => None,
        }
    }

    /// The slot of the local binding of a name that is visible at a node: it stands in one of the
    /// elements around it.
    pub(crate) fn slot_at(&self, tree: &Tree, n: Node, uri: &str, local: &str) -> Option<Slot>
        requires inside { n < length tree.now }
        requires locals { AreLocals tree.now (length tree.now) self.now }
        requires apart { IsApart tree.now }
        ensures { result ≡ local_slot tree.now n (uri.now, local.now) }
    {
        let mut inside = n;
        while let Some(parent) = tree.parent(inside) {
            if let Some(slot) = self.slot_in(parent, n.place(), uri, local) {
                return Some(slot);
            }
            inside = parent;
        }
        None
    }
}
