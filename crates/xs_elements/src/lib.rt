//! The elements of a stylesheet: which there are, what each may have, and what its texts say.
#![tactic(auto)]

pub mod attributes;
pub mod contents;
pub mod forms;
pub mod kept;
pub mod reading;
pub mod scope;
pub mod tags;
pub mod value;
pub mod words;
