//! The modules of a stylesheet: its includes and imports, read from a library (XSLT 1.0, 2.6).
#![tactic(auto)]

mod document;
mod mentions;
mod modules;
mod names;
mod precedence;
mod reading;

pub use modules::{Module, Modules, ModulesEnd};
pub use reading::read_modules;
