//! What is expected of a run: the job that its arguments ask for, its answer, and the reply and the
//! report that have it.
#![tactic(auto)]

pub mod checking;
pub mod deliver;
pub mod executed;
pub mod faults;
pub mod items;
pub mod job;
pub mod made;
pub mod reading;
pub mod reply;
pub mod report;
pub mod status;
