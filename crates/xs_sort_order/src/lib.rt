//! Nodes in the order of their sort keys (XSLT 1.0, 10).
#![tactic(auto)]

pub mod key_text;
pub mod keyed;
pub mod keys;
pub mod laws;
