//! A number for each name.

ghost use Rattle.std.specs.Prelude.{◌≡◌};
ghost use Rattle.xs_elements.specs.Nodes.{name_data};
ghost use Rattle.xs_static.specs.steps.Ranks.{number_in};

use std::alloc::{AllocError, Global};
use std::collections::HashMap;
use xs_elements::scope::Expanded;
use xs_tree::InputHashes;

/// Numbers of names.
#[derive(Drop)]
pub(crate) struct Numbers<'a> {
    numbers: HashMap<Expanded<'a>, usize, InputHashes>,
}

impl<'a> Numbers<'a> {
    /// Of no name, in a table with these hashes.
    pub(crate) fn new(alloc: Global, hashes: InputHashes) -> Numbers<'a> {
        Numbers {
            numbers: HashMap::with_hasher(alloc, hashes),
        }
    }

    /// The hashes of the table.
    pub(crate) fn hashes(&self) -> InputHashes {
        *self.numbers.hasher()
    }

    /// The number of a name, 0 where it has none.
    pub(crate) fn of(&self, name: Expanded<'_>) -> usize
        ensures { result ≡ number_in self.now (name_data name.entry) }
    {
        match self.numbers.get(&name) {
            Some(number) => *number,
            None => 0,
        }
    }

    /// Gives a name a number, in place of the one that it had.
    pub(crate) fn set(&mut self, name: Expanded<'a>, number: usize) -> Result<(), AllocError> {
        self.numbers.insert(name, number)?;
        Ok(())
    }
}
