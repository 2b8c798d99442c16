//! The keys of a stylesheet: tables of the nodes that they give for each text (XSLT 1.0, 12.2).
#![tactic(auto)]

mod cells;
pub mod keys;
pub mod laws;
mod pairs;
mod runs;
mod tables;
mod uses;
