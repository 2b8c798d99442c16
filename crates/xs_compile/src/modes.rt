//! Modes, known by numbers (XSLT 1.0, 5.7).

ghost use Rattle.std.specs.Prelude.{◌≡◌, ◌+◌, ◌<◌, ℕ, true, length, option_map, List, Option, Some};
ghost use Rattle.std.specs.Prelude.{IfOk, OnOk};
ghost use Rattle.xs_compile.specs.Labels.{IsMode};
ghost use Rattle.xs_compile.specs.Modes.{HaveModes, HasModes, has_mode, modes_in, modes_of};
ghost use Rattle.xs_compile.specs.Modes.{tree_mode, tree_modes, with_mode, with_modes};
ghost use Rattle.xs_elements.specs.Nodes.{Name, name_data};
ghost use Rattle.xs_modules.specs.Results.{modules_data};
ghost use Rattle.xs_tree.specs.Record.{Record};

use crate::counted::following;
use indexmap::IndexSet;
use std::alloc::{AllocError, Global};
use xs_elements::scope::{Expanded, expand_name, value_of};
use xs_modules::Modules;
use xs_tree::{InputHashes, Kind, Node, Tree};

/// The modes that a stylesheet names, by first use in the order of its modules and their nodes.
#[derive(Drop)]
pub(crate) struct Modes<'m> {
    /// Each name once.
    pub(crate) names: IndexSet<Expanded<'m>, InputHashes>,
}

/// The mode that an element names, if it does.
pub(crate) fn mode_at(tree: &Tree, n: Node) -> Option<Expanded<'_>>
    requires { n < length tree.now }
    ensures { option_map name_data result ≡ tree_mode tree.now n }
{
    let text = value_of(tree, n, "", "mode")?;
    expand_name(tree, n, text)
}

/// The mode that a node names. An element alone names one, and a node that is none has no
/// attributes to look through.
fn noted_at(tree: &Tree, n: Node) -> Option<Expanded<'_>>
    requires { n < length tree.now }
    ensures { option_map name_data result ≡ tree_mode tree.now n }
{
    let _count = tree.len();
    match tree.kind(n) {
        Kind::Element => mode_at(tree, n),
        _ => None,
    }
}

impl<'m> Modes<'m> {
    /// Those of all modules, in a table with these hashes.
    #[tactic(auto, unfolding(crate::specs::Modes::modes_of))]
    pub(crate) fn of(
        alloc: Global,
        hashes: InputHashes,
        modules: &'m Modules,
    ) -> Result<Modes<'m>, AllocError>
        ensures modes { IfOk result (HaveModes (modules_data modules.now)) }
        ensures order { IfOk result (λ m. modes_in m ≡ modes_of (modules_data modules.now)) }
    {
        let mut modes = Modes {
            names: IndexSet::with_hasher(alloc, hashes),
        };
        for module in &modules.list {
            modes.note_module(&module.tree)?;
        }
        Ok(modes)
    }

    /// Notes those of a module.
    fn note_module(&mut self, tree: &'m Tree) -> Result<(), AllocError>
        ensures modes { OnOk result (HasModes tree.now (length tree.now) self.new) }
        ensures kept { OnOk result ((rs : List Record) (count : ℕ) → HasModes rs count self.old
            → HasModes rs count self.new) }
        ensures order { OnOk result (modes_in self.new
            ≡ with_modes (modes_in self.old) (tree_modes tree.now)) }
    {
        for place in 0..tree.len() as u32 {
            self.note(noted_at(tree, Node::at(place)))?;
        }
        Ok(())
    }

    /// Notes a mode, if there is one.
    fn note(&mut self, mode: Option<Expanded<'m>>) -> Result<(), AllocError>
        ensures noted { OnOk result (has_mode self.new (option_map name_data mode.entry) ≡ true) }
        ensures kept { OnOk result ((mode : Option Name) → has_mode self.old mode ≡ true
            → has_mode self.new mode ≡ true) }
        ensures order { OnOk result (modes_in self.new
            ≡ with_mode (modes_in self.old) (option_map name_data mode.entry)) }
    {
        if let Some(name) = mode {
            self.names.insert(name)?;
        }
        Ok(())
    }

    /// The number of a mode, from 1 on.
    pub(crate) fn number(&self, name: Expanded<'m>) -> Result<u32, AllocError>
        requires { has_mode self.now (Some (name_data name)) ≡ true }
        ensures { IfOk result (IsMode (modes_in self.now) (Some (name_data name.entry))) }
    {
        match self.names.get_index_of(&name) {
            Some(place) => number_of(place),
            None => unreachable!(),
        }
    }
}

/// The number of the mode at a place of the list.
fn number_of(place: usize) -> Result<u32, AllocError>
    ensures { IfOk result (λ n. n ≡ place + 1) }
{
    match u32::try_from(place) {
        Ok(place) => following(place),
        Err(_) => Err(AllocError),
    }
}
