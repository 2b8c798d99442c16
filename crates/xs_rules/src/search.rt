//! What a rule is sought for.

use crate::candidates::Looked;
use std::alloc::Global;
use xs_tree::{Node, Tree};
use xs_value::keys::KeyFinder;

/// The search of the rule that a node takes, by its methods.
#[derive(Drop)]
pub(crate) struct Search<'a, K: KeyFinder> {
    /// Where what is made on the way is stored.
    pub(crate) alloc: Global,
    /// The documents.
    pub(crate) tree: &'a Tree,
    /// By which nodes are found by key.
    pub(crate) keys: &'a K,
    /// The precedences of the rules that are looked at.
    pub(crate) looked: Looked,
    /// The mode.
    pub(crate) mode: u32,
    /// The node.
    pub(crate) node: Node,
}
