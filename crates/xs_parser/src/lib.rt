//! The parser of expressions of XPath 1.0, and of patterns and value templates of XSLT 1.0.
#![tactic(auto)]

mod arity;
pub mod avt;
mod build;
mod bytes;
pub mod fault;
pub mod laws;
mod lexer;
mod names;
mod nesting;
pub mod parse;
mod part;
mod path;
mod pattern;
mod read;
mod resolve;
mod scan;
mod signs;
pub mod token;

pub use names::axes;
