//! What a compiled stylesheet does: its definition, and the laws of that.
#![tactic(auto)]

pub mod finder;
pub mod focus;
pub mod laws;
pub mod made;
