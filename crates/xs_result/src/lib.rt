//! The result of a run: what stays of the events that were put, and its text.
#![tactic(auto)]

mod builder;
mod events;
mod pending;
mod start_tag;
mod write;

pub use events::build;
pub use write::write_text;
