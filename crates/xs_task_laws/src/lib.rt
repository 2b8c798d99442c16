//! The tree of the tasks of a run: laws of it.
#![tactic(auto)]

pub mod laws;
