//! The texts of numbers that `xsl:number` puts (XSLT 1.0, 7.7).
#![tactic(auto)]

mod formats;
pub mod formatting;
pub mod laws;
pub mod levels;
mod numerals;
pub mod passes;
