//! Which template rule a node takes (XSLT 1.0, 5.5 and 5.6), and which white space of a source is
//! stripped (3.4).
#![tactic(auto)]

mod candidates;
pub mod choice;
mod entries;
pub mod index;
mod kind_lists;
mod lists;
mod places;
mod ranks;
mod rule_keys;
mod rule_kinds;
mod search;
mod shapes;
mod strip_index;
mod tables;
pub mod white_space;
