//! What is in force up to some place of a module: names, and namespaces under an empty local part.

ghost use Rattle.std.specs.Prelude.{◌≡◌, ℕ, ◌&&◌, ◌||◌, nat_lt, max, false, List, OnOk};
ghost use Rattle.std.specs.Option.{option_map_or};
ghost use Rattle.xs_elements.specs.Nodes.{is_same_name, name_data};
ghost use Rattle.xs_structure.specs.InForce.{end_of, in_force_at};

use std::alloc::{AllocError, Global};
use std::collections::HashMap;
use xs_elements::scope::Expanded;
use xs_tree::InputHashes;

/// Names, each with the greatest of the places before which it is in force.
#[derive(Drop)]
pub struct InForce<'m> {
    ends: HashMap<Expanded<'m>, u32, InputHashes>,
}

impl<'m> InForce<'m> {
    /// None, in a table with these hashes.
    pub fn new(alloc: Global, hashes: InputHashes) -> InForce<'m>
        ensures { (uri local : List ℕ) (place : ℕ) → in_force_at result uri local place ≡ false }
    {
        InForce {
            ends: HashMap::with_hasher(alloc, hashes),
        }
    }

    /// Whether a name is in force at a place. Where there is none, as in most modules, no hash is
    /// made.
    pub fn has(&self, uri: &str, local: &str, place: u32) -> bool
        ensures { result ≡ in_force_at self.now uri.now local.now place }
    {
        if self.ends.is_empty() {
            return false;
        }
        match self.ends.get(&(uri, local)) {
            Some(end) => place < *end,
            None => false,
        }
    }

    /// The greater of a place and of the one before which a name is in force, if it is.
    fn later(&self, name: Expanded<'m>, end: u32) -> u32
        ensures { result ≡ option_map_or (λ old. max end old)
            (end_of self.now name.entry.0.now name.entry.1.now) end }
    {
        match self.ends.get(&name) {
            Some(old) => end.max(*old),
            None => end,
        }
    }

    /// One comes into force, up to the node before a place.
    pub fn enter(&mut self, name: Expanded<'m>, end: u32) -> Result<(), AllocError>
        ensures { OnOk result ((uri local : List ℕ) (place : ℕ)
            → in_force_at self.new uri local place
            ≡ (is_same_name (uri, local) (name_data name.entry) && nat_lt place end
            || in_force_at self.old uri local place)) }
    {
        let end = self.later(name, end);
        self.ends.insert(name, end)?;
        Ok(())
    }
}
