//! The static faults of a stylesheet: for what it is refused before anything is transformed.
#![tactic(auto)]

pub mod circles;
mod element;
mod expressions;
mod fault;
mod locals;
mod name_numbers;
mod names;
mod numbers;
mod ranks;
mod search;
mod sets;
mod uses;
mod variables;
mod walk;

pub use fault::{StaticFault, first_fault};
