//! What stays the same through a sort.

use std::alloc::Global;
use xs_eval_spec::expressions::ExprEvaluator;
use xs_trace::item::Site;

/// What sorts nodes: what stays the same from one key to the next.
#[derive(Drop)]
pub(crate) struct Sorter<'k, K: ExprEvaluator> {
    /// Where values are stored.
    pub(crate) alloc: Global,
    /// What evaluates expressions, over the tables of its keys.
    pub(crate) keys: &'k K,
    /// The instruction, at which ticks and faults are reported.
    pub(crate) site: Site,
}
