//! Patterns of XSLT 1.0: whether a node matches one (5.2).
#![tactic(auto)]

pub mod above;
mod keys;
pub mod match_tables;
pub mod matcher;
pub mod matching;
mod node_tests;
pub mod path_tables;
pub mod paths;
mod predicates;
mod steps;
mod values;
