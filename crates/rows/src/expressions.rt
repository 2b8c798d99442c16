//! Rows on expressions: numbers, strings, what texts are parsed to, axes, values and patterns.

mod answers;
mod calls;
mod evaluated;
pub(crate) mod files;
mod matched;
mod names;
mod numbers;
mod parsed;
mod settings;
pub(crate) mod shown;
mod strings;
mod tables;
mod values;
