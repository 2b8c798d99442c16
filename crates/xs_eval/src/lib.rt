//! The evaluation of XPath 1.0: expressions over a tree, which report their ticks to a tally.
#![tactic(auto)]

mod arguments;
mod calls;
mod chains;
mod comparisons;
pub mod evaluate;
mod evaluator;
mod filters;
pub mod keys;
mod languages;
mod names;
pub mod node_tests;
mod nodes;
mod operand;
mod operators;
mod paths;
pub mod predicates;
mod steps;
mod strings;
pub mod templates;
mod variables;
