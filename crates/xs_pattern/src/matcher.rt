//! What stays the same while nodes are matched.

use std::alloc::Global;
use xs_tree::Tree;
use xs_value::keys::KeyFinder;

/// Matches nodes of a tree with patterns, by its methods.
#[derive(Drop)]
pub struct Matcher<'a, K: KeyFinder> {
    /// Where what is made on the way is stored.
    pub alloc: Global,
    /// The documents.
    pub tree: &'a Tree,
    /// By which nodes are found by key.
    pub keys: &'a K,
}
