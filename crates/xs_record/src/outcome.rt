//! What a run of a piece gives.

ghost use Rattle.std.specs.Prelude.{◌≡◌, ◌+◌, ◌≤◌, ℕ};
ghost use Rattle.xs_block.specs.Chain.{most_blocks};
ghost use Rattle.xs_record.specs.Outcome.{is_done, part_blocks};

use crate::segment::Segment;
use xs_block::chain::Chain;
use xs_block::pool::Pool;
use xs_trace::item::Ended;

/// What a piece did, up to a hole or its end.
#[derive(Drop)]
pub struct Part {
    /// Ticks, events and messages, in order.
    pub items: Chain<Segment>,
    /// The number of the hole that follows; none where the piece ends.
    pub hole: Option<u64>,
}

/// What a run of a piece gives. A whole run is a piece without holes.
#[derive(Drop)]
pub struct Outcome {
    /// What it did, in order; the last part alone has no hole.
    pub parts: Vec<Part>,
    /// How it ended.
    pub ended: Ended,
    /// How many ticks it took.
    pub ticks: u64,
}

impl Outcome {
    /// Whether the run ended by itself, and not in the total that it shares.
    pub fn is_done(&self) -> bool
        ensures done { result ≡ is_done self.now.ended }
    {
        !matches!(self.ended, Ended::Over { .. })
    }
}

/// The blocks of parts are free.
pub fn free_parts(pool: &mut Pool<Segment>, parts: Vec<Part>)
    ensures blocks { (n : ℕ) → n ≤ most_blocks → n ≤ part_blocks parts.items + pool.old
        → n ≤ pool.new }
{
    let mut parts = parts;
    while let Some(part) = parts.pop() {
        pool.give_back(part.items);
    }
}
