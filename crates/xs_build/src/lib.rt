//! From the lines of a document to its tree, or to the fault of its first bad line.
#![tactic(auto)]

mod attributes;
mod builder;
mod contents;
mod data;
mod document;
mod elements;
pub mod fault;
mod known;
pub mod laws;
mod local_part;
mod name_set;
mod nodes;
mod opened;
mod pending_text;
mod qnames;
mod scope;
mod spaces;
mod start_tag;
mod tag_names;

pub use document::{Built, build_tree};
pub use fault::BuildFault;
