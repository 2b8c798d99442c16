//! What patterns decide (XSLT 1.0, 5.2, 5.5 and 7.7): the definitions.
#![tactic(auto)]

pub mod ranks;
pub mod rule;
