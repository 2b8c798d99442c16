//! Expressions of XPath 1.0, patterns and value templates of XSLT 1.0, as trees.
#![tactic(auto)]

pub mod avt;
pub mod bind;
pub mod calls;
pub mod expr;
pub mod name;
pub mod pattern;
mod rising;
pub mod scope;
pub mod token;
pub mod uses;
