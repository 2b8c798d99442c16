//! Pieces of a run: what runs them, the tree that they make, and collections of what they did.
#![tactic(auto)]

pub mod laws;
pub mod piece;
pub mod runner;
