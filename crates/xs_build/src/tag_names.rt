//! The names that a start tag has so far.

ghost use Rattle.std.specs.Prelude.{◌≡◌, [], ◌∷◌, ◌++◌, not, true, IfOk};
ghost use Rattle.std.specs.List.{list_any};
ghost use Rattle.xs_build.specs.steps.Lines.{same_name};
ghost use Rattle.xs_build.specs.steps.NameSets.{key_of};

use crate::local_part::LocalPart;
use crate::name_set::NameSet;
use std::alloc::{AllocError, Global};
use std::marker::Model;
use xs_tree::NameText;

/// A namespace URI, empty for none, and a local part (Namespaces in XML 1.0, 2.1).
#[derive(Drop, Debug, PartialEq, Eq)]
pub struct Expanded<'a> {
    /// The local part, which is compared first.
    pub local: LocalPart<'a>,
    /// The namespace URI, empty for none.
    pub uri: NameText,
}

impl<'a> Expanded<'a> {
    /// What names are sorted by: the local part and then the URI, in memory of its own.
    pub fn key(&self) -> Result<(LocalPart<'a>, NameText), AllocError>
        ensures { IfOk result (λ key. key ≡ key_of self.now) }
    {
        Ok((LocalPart::of(self.local.as_str()), self.uri.copy()?))
    }
}

/// The most names that are compared one by one.
const FEW: usize = 8;

/// The expanded names of a start tag's attributes and declarations, no two of them equal: the first
/// few in a list, and others in a set.
#[derive(Drop)]
pub struct TagNames<'a> {
    few: Vec<Expanded<'a>>,
    others: NameSet<'a>,
}

impl<'a> Model for TagNames<'a> {
    ghost use Rattle.std.specs.Prelude.{List, ◌++◌};
    ghost use Rattle.xs_build.specs.declared.tag_names.Expanded.{Expanded};

    ghost Value = { List Expanded };

    ghost view = { λ t. t.few.items ++ t.others };
}

impl<'a> TagNames<'a> {
    /// No names.
    pub fn new(alloc: Global) -> TagNames<'a>
        ensures { result ≡ [] }
    {
        TagNames {
            few: Vec::new(alloc),
            others: NameSet::new(alloc),
        }
    }

    /// Adds a name, and answers whether it was not there.
    pub fn insert(&mut self, name: Expanded<'a>) -> Result<bool, AllocError>
        ensures new { IfOk result (λ is_new. is_new ≡ not (list_any (same_name name.entry)
            self.old)) }
        ensures added { IfOk result (λ is_new. is_new ≡ true → self.new ≡ self.old
            ++ name.entry ∷ []) }
    {
        if self.few.contains(&name) {
            return Ok(false);
        }
        if self.others.is_empty() && self.few.len() < FEW {
            self.few.push(name)?;
            return Ok(true);
        }
        self.others.insert(name)
    }

    /// Forgets all names. The memory of a few is kept, so that a start tag of many names costs no
    /// other one time.
    pub fn clear(&mut self, alloc: Global)
        ensures { self.new ≡ [] }
    {
        self.few.clear();
        if !self.others.is_empty() {
            let _many = std::mem::replace(&mut self.others, NameSet::new(alloc));
        }
    }
}
