//! Rows on stylesheets: which modules are read, what is refused, what a stylesheet is compiled to,
//! and which rules the nodes of a document take.

mod answers;
mod bodies;
mod circles;
mod compact;
mod elements;
pub(crate) mod files;
pub(crate) mod modules;
mod rules;
mod settings;
mod sheets;
mod values;
mod white_space;
