//! The tables of a tree's names and of its namespace URIs, each kept once.
//!
//! They are searched by order and not by a hash: whoever writes a document chooses its names, and
//! could choose names of one hash, of which each costs a walk over all that came before.

ghost use Rattle.std.specs.Prelude.{◌≡◌, ◌+◌, ◌<◌, ◌≤◌, [], Some, slice_get, length, IfOk, IfSome};
ghost use Rattle.std.specs.Option.{option_copied};
ghost use Rattle.xs_tree.specs.Growth.{Keeps};
ghost use Rattle.xs_tree.specs.Store.{name_at};

use crate::input_hashes::InputHashes;
use crate::names::{Name, NameText};
use std::alloc::{AllocError, Global};
use std::collections::BTreeMap;
use std::marker::Model;

/// Names by number, no two of them equal. They count from 1 on, so that 0 is none.
#[derive(Drop)]
pub struct NameTable {
    names: Vec<Name>,
    /// The number of each name.
    numbers: BTreeMap<Name, u32>,
}

impl Model for NameTable {
    ghost use Rattle.std.specs.Prelude.{List};
    ghost use Rattle.xs_tree.specs.declared.names.Name.{Name};

    ghost Value = { List Name };

    ghost view = { λ t. t.names.items };
}

impl NameTable {
    /// A table without names.
    pub fn new(alloc: Global) -> NameTable
        ensures empty { result ≡ [] }
    {
        NameTable {
            names: Vec::new(alloc),
            numbers: BTreeMap::new(alloc),
        }
    }

    /// Lets hashes take in all names.
    pub fn take_in(&self, hashes: &mut InputHashes) {
        for name in &self.names {
            hashes.take_in(name.uri.as_str());
            hashes.take_in(name.local.as_str());
            hashes.take_in(name.prefix.as_str());
        }
    }

    /// The number of a name, which is added if it is new.
    pub fn intern(&mut self, name: Name) -> Result<u32, AllocError>
        ensures stored { IfOk result (λ number. name_at self.new number ≡ Some name) }
        ensures numbered { IfOk result (λ number. number ≤ length self.new) }
        ensures kept { Keeps self.old self.new }
    {
        match self.find(&name) {
            Some(number) => Ok(number),
            None => self.push(name),
        }
    }

    // The number of a name that is in the table.
    fn find(&self, name: &Name) -> Option<u32>
        ensures stored { IfSome result (λ number. name_at self.now number ≡ Some name.now) }
        ensures numbered { IfSome result (λ number. number ≤ length self.now) }
    {
        let number = *self.numbers.get(name)?;
        if self.get(number)? != name {
            return None;
        }
        Some(number)
    }

    // Adds a name, which gets the next number.
    fn push(&mut self, name: Name) -> Result<u32, AllocError>
        ensures stored { IfOk result (λ number. name_at self.new number ≡ Some name) }
        ensures numbered { IfOk result (λ number. number ≤ length self.new) }
        ensures kept { Keeps self.old self.new }
    {
        let number = number_at(self.names.len())?;
        self.numbers.insert(name.copy()?, number)?;
        self.names.push(name)?;
        Ok(number)
    }

    /// The number of a name, if there is one, and else 0.
    pub fn intern_any(&mut self, name: Option<Name>) -> Result<u32, AllocError>
        ensures stored { IfOk result (λ number. name_at self.new number ≡ name) }
        ensures numbered { IfOk result (λ number. number ≤ length self.new) }
        ensures kept { Keeps self.old self.new }
    {
        match name {
            Some(name) => self.intern(name),
            None => Ok(0),
        }
    }

    /// The name with a number.
    pub fn get(&self, number: u32) -> Option<&Name>
        ensures name { option_copied result ≡ name_at self.now number }
    {
        if number == 0 {
            return None;
        }
        self.names.get(number as usize - 1)
    }
}

// The number of the name at a place.
fn number_at(place: usize) -> Result<u32, AllocError>
    ensures { IfOk result (λ number. number ≡ place + 1) }
{
    match u32::try_from(place) {
        Ok(place) => place.checked_add(1).ok_or(AllocError),
        Err(_) => Err(AllocError),
    }
}

/// Namespace URIs by number, no two of them equal.
#[derive(Drop)]
pub struct UriTable {
    uris: Vec<NameText>,
    /// The number of each URI.
    numbers: BTreeMap<NameText, u32>,
}

impl Model for UriTable {
    ghost use Rattle.std.specs.Prelude.{List, ℕ};

    ghost Value = { List (List ℕ) };

    ghost view = { λ t. t.uris.items };
}

impl UriTable {
    /// A table without URIs.
    pub fn new(alloc: Global) -> UriTable
        ensures empty { result ≡ [] }
    {
        UriTable {
            uris: Vec::new(alloc),
            numbers: BTreeMap::new(alloc),
        }
    }

    /// The number of a URI, which is added if it is new.
    pub fn intern(&mut self, uri: NameText) -> Result<u32, AllocError>
        ensures stored { IfOk result (λ number. slice_get self.new number ≡ Some uri) }
        ensures numbered { IfOk result (λ number. number < length self.new) }
        ensures kept { Keeps self.old self.new }
    {
        match self.find(&uri) {
            Some(number) => Ok(number),
            None => self.push(uri),
        }
    }

    // The number of a URI that is in the table.
    fn find(&self, uri: &NameText) -> Option<u32>
        ensures stored { IfSome result (λ number. slice_get self.now number ≡ Some uri.now) }
        ensures numbered { IfSome result (λ number. number < length self.now) }
    {
        let number = *self.numbers.get(uri)?;
        if self.get(number)? != uri {
            return None;
        }
        Some(number)
    }

    // Adds a URI, which gets the next number.
    fn push(&mut self, uri: NameText) -> Result<u32, AllocError>
        ensures stored { IfOk result (λ number. slice_get self.new number ≡ Some uri) }
        ensures numbered { IfOk result (λ number. number < length self.new) }
        ensures kept { Keeps self.old self.new }
    {
        let number = u32::try_from(self.uris.len()).map_err(|_| AllocError)?;
        self.numbers.insert(uri.copy()?, number)?;
        self.uris.push(uri)?;
        Ok(number)
    }

    /// The URI with a number.
    pub fn get(&self, number: u32) -> Option<&NameText>
        ensures uri { option_copied result ≡ slice_get self.now number }
    {
        self.uris.get(number as usize)
    }
}
