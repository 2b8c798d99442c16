//! The words after the program's name, read as the options of a run.
#![tactic(auto)]

mod choice;
mod command;
mod inputs;
mod numbers;
mod options;
mod rows;
mod settings;

pub use choice::{Job, Options, WordsEnd};
pub use inputs::MOST_DOCUMENTS;
pub use options::{USAGE, read_words};
pub use settings::{
    DEFAULT_BUDGET, DEFAULT_GRAIN, DEFAULT_WORKERS, MOST_BUDGET, MOST_GRAIN, MOST_LOAD,
    MOST_WORKERS,
};
