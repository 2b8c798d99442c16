//! What finds rules, nodes by key and numbers for a stylesheet.
#![tactic(auto)]

pub mod finder;
