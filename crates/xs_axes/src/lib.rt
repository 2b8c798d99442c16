//! The axes of XPath over a tree (XPath 1.0, 2.2).
#![tactic(auto)]

mod backward;
mod forward;
pub mod laws;
mod nodes;
mod starts;
mod walks;

pub use nodes::{AxisNodes, axis_nodes};
