//! An XML document, or several, as a tree of nodes in document order (XPath 1.0, 5).
#![tactic(auto)]

mod axes;
mod closing;
mod compaction;
mod entries;
mod input_hashes;
mod kinds;
pub mod laws;
mod names;
mod nodes;
mod store;
mod table;
mod trees;

pub use axes::Axis;
pub use input_hashes::InputHashes;
pub use kinds::Kind;
pub use names::{Name, NameText};
pub use nodes::{Node, is_flagged};
pub use trees::{Attributes, Children, MOST_NODES, Namespaces, Texts, Tree, TreeFault};
