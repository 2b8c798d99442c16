//! What a run takes of its host.

use std::alloc::Global;

/// The threads, the memory, and the gate of a run.
#[derive(Drop)]
pub struct Host<'a, R, G> {
    /// What starts threads.
    pub rt: &'a R,
    /// Where memory comes from.
    pub alloc: Global,
    /// What a worker passes between a claim and the run of its piece.
    pub gate: &'a G,
}
