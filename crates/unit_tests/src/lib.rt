//! Tests of what no row can write: fakes, refused allocations, threads, laws called as functions.
#![tactic(auto)]

#[cfg(test)]
mod blocks;
#[cfg(test)]
mod copies;
#[cfg(test)]
mod document_laws;
#[cfg(test)]
mod ears;
#[cfg(test)]
mod edges;
#[cfg(test)]
mod laws;
#[cfg(test)]
mod ledgers;
#[cfg(test)]
mod loads;
#[cfg(test)]
mod machine;
#[cfg(test)]
mod numbers;
#[cfg(test)]
mod orders;
#[cfg(test)]
mod pieces;
#[cfg(test)]
mod probe;
#[cfg(test)]
mod recorders;
pub mod table;
#[cfg(test)]
mod ticks;
#[cfg(test)]
mod workers;
