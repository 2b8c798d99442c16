//! What stays the same through an evaluation.

use std::alloc::Global;
use xs_trace::item::Site;
use xs_value::keys::KeyFinder;

/// What evaluates expressions: what stays the same from one of them to the next.
#[derive(Drop)]
pub(crate) struct Evaluator<'k, K: KeyFinder> {
    /// Where values are stored.
    pub(crate) alloc: Global,
    /// The tables of the keys.
    pub(crate) keys: &'k K,
    /// The instruction, at which ticks and faults are reported.
    pub(crate) site: Site,
}
