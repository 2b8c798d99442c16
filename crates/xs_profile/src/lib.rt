//! Where the ticks of a run went: by places, by parts, and one by one.
#![tactic(auto)]

pub mod count;
pub mod laws;
mod parts;
pub mod profile;
mod runs;
mod search;
mod table;
