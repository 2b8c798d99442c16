//! The string functions of XPath 1.0, 4.2, over characters.
#![tactic(auto)]

pub mod normalization;
pub mod positions;
mod replacements;
pub mod searching;
pub mod translation;
