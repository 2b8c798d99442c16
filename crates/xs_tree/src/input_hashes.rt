//! Hashes that whoever writes an input cannot choose.

use std::hash::{BuildHasher, DefaultHasher, Hasher};

/// Makes the hashers of a table whose keys come from an input: SipHash that has taken in that input
/// before it takes a key.
///
/// Whoever writes an input chooses the keys, and with a hash that never changes could choose many
/// keys of one hash, of which each costs a walk over all that came before. Here another input has
/// other hashes, and one input has the same hashes in each run.
#[derive(Clone, Copy)]
pub struct InputHashes {
    initial: DefaultHasher,
}

impl InputHashes {
    /// Those of no input.
    pub fn new() -> InputHashes {
        InputHashes {
            initial: DefaultHasher::new(),
        }
    }

    /// Takes in a part of the input.
    pub fn take_in(&mut self, part: &str) {
        self.initial.write(part.as_bytes());
    }
}

impl BuildHasher for InputHashes {
    type Hasher = DefaultHasher;

    ghost build_hasher = { λ h. h.initial };

    fn build_hasher(&self) -> DefaultHasher {
        self.initial
    }
}
