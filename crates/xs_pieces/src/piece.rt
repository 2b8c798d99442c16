//! Pieces of a run, and what they did.

use std::alloc::AllocError;
use xs_block::pool::Pool;
use xs_core::place::Claim;
use xs_record::outcome::Outcome;
use xs_record::segment::Segment;

/// What a worker runs pieces with: its share in the total of ticks, and the free blocks in which it
/// records.
#[derive(Drop)]
pub struct Desk<T> {
    /// Its share in the total.
    pub share: T,
    /// Its free blocks.
    pub pool: Pool<Segment>,
}

/// What comes back from a run of a piece.
#[derive(Drop)]
pub struct Ran<T> {
    /// What the piece did, or out of memory.
    pub outcome: Result<Outcome, AllocError>,
    /// The desk at which it ran.
    pub desk: Desk<T>,
}

/// A piece: its task, and what it did if it was run.
#[derive(Drop)]
pub struct Piece<T> {
    /// What is to be done.
    pub task: T,
    /// What was done; none where the piece was not run.
    pub outcome: Option<Outcome>,
}

/// The pieces of a run.
#[derive(Drop)]
pub struct Collected<T> {
    /// All pieces that there are tasks of.
    pub pieces: Vec<Piece<T>>,
    /// Which worker claimed which place: those of the pieces that were run.
    pub claims: Vec<Claim>,
    /// How many ticks all pieces took together.
    pub total: u64,
}
