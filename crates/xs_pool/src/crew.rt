//! What all workers of a run have in common.

use std::alloc::Global;
use xs_trace::item::Limits;

/// What runs their tasks, the gate that each passes, the limits, and how many they are.
#[derive(Drop)]
pub struct Crew<'a, R, G> {
    /// Where memory comes from.
    pub alloc: Global,
    /// What runs tasks.
    pub runner: &'a R,
    /// What a worker passes between a claim and the run of a piece.
    pub gate: &'a G,
    /// How many ticks and events there may be.
    pub limits: Limits,
    /// How many workers there are.
    pub count: u32,
}
