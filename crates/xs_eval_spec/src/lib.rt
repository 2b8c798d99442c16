//! What an expression of XPath 1.0 means: its context, its run, and what evaluates it.
#![tactic(auto)]

pub mod context;
pub mod expressions;
pub mod trouble;
