//! Stylesheets, compiled: the modules of a stylesheet to what a transformation runs.
#![tactic(auto)]

mod aliases;
mod applying;
mod binding;
mod bodies;
mod compiled;
mod compiler;
mod counted;
mod labels;
pub mod laws;
mod making;
mod modes;
mod output;
mod own;
mod parsed;
mod parts;
mod priorities;
mod reading;
mod slots;
mod spaces;
mod templates;
mod variables;

pub use compiled::{CompileEnd, compile};
