//! Hashes for tables whose keys come from the modules of a stylesheet.

use std::hash::{BuildHasher, Hasher};
use xs_modules::Modules;
use xs_tree::InputHashes;

/// The digits of a hash, as texts.
static DIGITS: [&str; 16] = [
    "0", "1", "2", "3", "4", "5", "6", "7", "8", "9", "a", "b", "c", "d", "e", "f",
];

/// Hashes of a stylesheet, which who wrote its modules cannot choose: they have taken in what those
/// of each module have.
///
/// Takes time linear in the texts and names of the modules: made once for all tables.
pub fn hashes_of(modules: &Modules) -> InputHashes {
    let mut hashes = InputHashes::new();
    for module in &modules.list {
        let hash = module.tree.hashes().build_hasher().finish();
        take_in(&mut hashes, hash);
    }
    hashes
}

/// Hashes take in another one, digit by digit.
fn take_in(hashes: &mut InputHashes, hash: u64) {
    let mut rest = hash;
    for _ in 0..16 {
        hashes.take_in(DIGITS[(rest % 16) as usize]);
        rest /= 16;
    }
}
