//! The structure of a stylesheet (XSLT 1.0, 2): its declarations in order, what is at a place, and
//! what each node has by the nodes around it.
#![tactic(auto)]

pub mod bindings;
pub mod declarations;
pub mod hashes;
pub mod in_force;
mod namespaces;
pub mod places;
pub mod scopes;
pub mod standing;
