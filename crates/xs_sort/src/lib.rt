//! Sorting nodes (XSLT 1.0, 10).
#![tactic(auto)]

pub mod laws;
pub mod orders;
mod sorter;
pub mod sorting;
