//! The numbers that instructions count (XSLT 1.0, 7.7), by their patterns.
#![tactic(auto)]

mod alike;
pub mod counter;
pub mod counters;
mod declared;
mod same;
