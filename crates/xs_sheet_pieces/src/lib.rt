//! The tree of pieces that a run of a stylesheet makes, and what runs them.
#![tactic(auto)]

mod children;
pub mod placed;
pub mod runner;
