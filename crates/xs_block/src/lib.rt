//! Items in blocks of 64, in chains that are joined without copying, and the pool of free blocks.
#![tactic(auto)]

mod blocks;
pub mod chain;
pub mod items;
pub mod pool;
