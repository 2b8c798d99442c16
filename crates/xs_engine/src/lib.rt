//! The top call: from arguments, files and sinks to a report.
#![tactic(auto)]

mod answer;
mod evaluation;
mod host;
mod top;

pub use answer::run_reply;
pub use host::Host;
pub use top::transform;
pub use xs_core::place::{Claim, Place};
pub use xs_outside as outside;
pub use xs_reply::job::Job;
pub use xs_reply::reply::{Reply, ReportedFault};
pub use xs_reply::report::Report;
pub use xs_reply::status;
