//! A piece: how much work it is, and how far a worker has come with it.

use crate::place::Place;

/// What is known of a piece before it is run.
#[derive(Debug, Drop)]
pub struct PieceFacts {
    /// Its place.
    pub place: Place,
    /// How many ticks it takes.
    pub ticks: u64,
    /// How many holes it has, and so how many children.
    pub holes: u64,
}

/// A piece in a worker's hand, or one that was dropped.
#[derive(Debug, Drop)]
pub struct Progress {
    /// Its place.
    pub place: Place,
    /// How many ticks were spent on it.
    pub spent: u64,
    /// How many of its children it has given.
    pub given: u64,
}
