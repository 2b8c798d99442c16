//! What is put of a run can be written, and what is written of a result reads back: the laws.
#![tactic(auto)]

pub mod puts;
pub mod results;
pub mod runs;
mod texts;

pub use texts::event_texts;
