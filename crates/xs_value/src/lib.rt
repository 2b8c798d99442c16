//! The values of XPath 1.0, their conversions and comparisons, and what finds nodes by key.
#![tactic(auto)]

pub mod comparison;
pub mod conversion;
pub mod keys;
pub mod node_list;
pub mod node_set;
pub mod shared;
pub mod text_indexes;
pub mod value;
