//! The whole numbers of XPath 1.0: their arithmetic, and how they are read and written.
#![tactic(auto)]

pub mod arithmetic;
pub mod number;
pub mod quotients;
pub mod reading;
pub mod writing;
