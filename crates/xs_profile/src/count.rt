//! Counts of ticks.

use xs_trace::item::Site;

/// A place, and how many ticks it has.
#[derive(Clone, Copy, PartialEq, Eq, Debug)]
pub struct Count {
    pub site: Site,
    pub ticks: u64,
}
