//! What a run of a stylesheet does, and the texts, names and faults that it speaks of.
#![tactic(auto)]

pub mod event;
pub mod fault;
pub mod item;
pub mod laws;
pub mod meter;
pub mod recorder;
pub mod total;
