//! The result of a run as the lines of a document.
#![tactic(auto)]

mod bound;
mod in_force;
pub mod laws;
mod least;
mod lent;
mod name_lines;
mod names;
mod open_tag;
mod open_text;
mod ordered;
mod pending;
mod plain_text;
mod scope;
mod stream;
mod tag;
mod tag_bindings;
mod text_key;
mod write;
mod writer;

pub use stream::PyxStream;
pub use write::write_pyx;
