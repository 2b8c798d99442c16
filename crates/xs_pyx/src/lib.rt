//! Documents in PYX form, line by line.
#![tactic(auto)]

pub mod fault;
mod first_bytes;
pub mod laws;
pub mod line;
mod plain;
mod read;
mod rest;
mod rows;
mod view;
mod write;

pub use fault::Fault;
pub use line::{Line, LineFault};
pub use plain::{PlainLine, plain_attribute, plain_text};
pub use read::{next_line, skip_line, view_line};
pub use rest::Rest;
pub use view::{Data, LineView};
pub use write::write_line;
pub use xs_text::TextBuf;
