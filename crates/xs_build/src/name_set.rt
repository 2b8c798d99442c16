//! Names in the order in which they were added, found by their order.
//!
//! They are not found by a hash: whoever writes a document chooses its names, and could choose names
//! of one hash, of which each costs a walk over all that came before.

ghost use Rattle.std.specs.Prelude.{◌≡◌, ◌↔◌, [], ◌∷◌, ◌++◌, not, true, IfOk, IsTrue};
ghost use Rattle.std.specs.List.{list_any};
ghost use Rattle.xs_build.specs.steps.Lines.{same_name};
ghost use Rattle.xs_build.specs.steps.NameSets.{key_of};

use crate::local_part::LocalPart;
use crate::tag_names::Expanded;
use std::alloc::{AllocError, Global};
use std::collections::BTreeSet;
use std::marker::Model;
use xs_tree::NameText;

/// Expanded names, no two of them equal. Contracts see them in the order in which they were added.
#[derive(Drop)]
pub struct NameSet<'a> {
    names: Vec<Expanded<'a>>,
    /// The same names, and perhaps one that memory was refused for.
    sorted: BTreeSet<(LocalPart<'a>, NameText)>,
}

impl<'a> Model for NameSet<'a> {
    ghost use Rattle.std.specs.Prelude.{List};
    ghost use Rattle.xs_build.specs.declared.tag_names.Expanded.{Expanded};
    ghost use Rattle.xs_build.specs.steps.NameSets.{AreIn};

    ghost Value = { List Expanded };

    ghost view = { λ s. s.names.items };

    ghost invariant = { λ s. AreIn s.sorted s.names.items };
}

impl<'a> NameSet<'a> {
    /// No names.
    pub fn new(alloc: Global) -> NameSet<'a>
        ensures { result ≡ [] }
    {
        NameSet {
            names: Vec::new(alloc),
            sorted: BTreeSet::new(alloc),
        }
    }

    /// Whether there are none.
    pub fn is_empty(&self) -> bool
        ensures { IsTrue result ↔ (self.now ≡ []) }
    {
        self.names.is_empty()
    }

    /// Whether a name is there, which is sorted by this key.
    fn has(&self, key: &(LocalPart<'a>, NameText), name: &Expanded<'a>) -> bool
        requires { key.now ≡ key_of name.now }
        ensures { result ≡ list_any (same_name name.now) self.now }
    {
        if self.sorted.contains(key) {
            self.names.contains(name)
        } else {
            false
        }
    }

    /// Adds a name, and answers whether it was not there.
    pub fn insert(&mut self, name: Expanded<'a>) -> Result<bool, AllocError>
        ensures new { IfOk result (λ is_new. is_new ≡ not (list_any (same_name name.entry)
            self.old)) }
        ensures added { IfOk result (λ is_new. is_new ≡ true → self.new ≡ self.old
            ++ name.entry ∷ []) }
    {
        let key = name.key()?;
        if self.has(&key, &name) {
            return Ok(false);
        }
        self.sorted.insert(key)?;
        self.names.push(name)?;
        Ok(true)
    }
}
