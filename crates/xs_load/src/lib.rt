//! A stylesheet and a source of any size, made in memory, to try a processor under load.
#![tactic(auto)]

mod case;

pub use case::load_case;
