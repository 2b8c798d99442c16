//! Recorders of runs: what they record lies in chains of blocks.
#![tactic(auto)]

pub mod brief;
mod ending;
pub mod laws;
pub mod log;
mod marks;
pub mod outcome;
mod parts;
mod paying;
pub mod piece;
mod plain;
mod room;
pub mod segment;
