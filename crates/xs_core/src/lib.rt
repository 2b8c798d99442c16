//! The machine of pieces and workers: which piece is where, and what a worker may do next.
#![tactic(auto)]

mod facts;
pub mod laws;
pub mod machine;
mod parts;
pub mod piece;
pub mod place;
mod places;
mod seat;
pub mod step;
