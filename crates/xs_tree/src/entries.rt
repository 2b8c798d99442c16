//! What a tree keeps of each node.

use crate::kinds::Kind;
use std::mem::size_of;

/// Where the text of a node lies: in the buffer, from its first byte to the one after its last.
///
/// The text of a namespace node is its URI, of which `start` is the number in the table.
#[derive(Clone, Copy)]
pub struct TextPlace {
    pub start: u32,
    pub end: u32,
}

/// A node: its text, the number of its name, its parent and the end of its subtree.
///
/// A node without a name has the number 0, and a root the parent 0. The end is the place of the
/// first node after the subtree, and 0 while the node is open: while it is the last node or one of
/// its ancestors.
#[derive(Clone, Copy)]
pub struct Entry {
    pub text: TextPlace,
    pub name: u32,
    pub parent: u32,
    pub end: u32,
    pub kind: Kind,
}

// A node takes 24 bytes beside its text.
const _: () = prove!(size_of::<Entry>() == 24);
