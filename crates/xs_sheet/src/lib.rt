//! A compiled stylesheet.
#![tactic(auto)]

pub mod body;
pub mod declarations;
pub mod items;
pub mod laws;
pub mod scoped;
pub mod sheet;
