//! The evaluation of a compiled stylesheet, which reports what it does to a recorder.
#![tactic(auto)]

mod applying;
pub mod attempts;
mod bindings;
mod calls;
mod choices;
mod contents;
mod copying;
mod evaluator;
pub mod frames;
mod instructions;
pub mod laws;
mod lists;
mod literals;
mod lone;
mod making;
mod numbers;
pub mod passed;
mod putting;
mod rules;
pub mod run;
pub mod runner;
mod sets;
mod slots;
mod sorts;
pub mod task;
mod tasks;
mod templates;
pub mod world;
