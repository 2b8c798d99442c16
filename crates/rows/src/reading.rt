//! Rows on what is read: texts, lines of PYX files, documents and trees.

mod documents;
pub(crate) mod files;
mod lines;
mod notation;
mod subjects;
mod texts;
mod trees;
