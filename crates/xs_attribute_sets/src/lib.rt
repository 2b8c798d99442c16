//! The attribute sets of a stylesheet (XSLT 1.0, 7.1.4): their declarations by name, in the order
//! in which they count, without the sets that reach no attribute.
#![tactic(auto)]

pub mod flags;
pub mod index;
mod lists;
mod order;
mod reach;
