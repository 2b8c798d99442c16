//! Running the pieces of a tree by workers that take tasks from one another, and collecting what
//! they did.
#![tactic(auto)]

mod begin;
pub mod crew;
mod deques;
mod desks;
pub mod ear;
mod finish;
mod gather;
pub mod log;
pub mod member;
mod moves;
mod next;
pub mod pool;
pub mod rule;
mod seats;
pub mod sequential;
mod turn;
mod work;
mod workers;
