//! The global variables and parameters of a stylesheet, settled before its run (XSLT 1.0, 11.4).
#![tactic(auto)]

mod given;
pub mod settled;
pub mod settling;
