//! The place of one tick.

ghost use Rattle.std.specs.Prelude.{◌≡◌, ◌<◌};
ghost use Rattle.xs_profile.specs.Counts.{site_at};
ghost use Rattle.xs_profile.specs.Sites.{sites_in};
ghost use Rattle.xs_profile.specs.steps.Runs.{run_sites};
ghost use Rattle.xs_profile.specs.steps.Search.{Passes};
ghost use Rattle.xs_record.specs.Segment.{items_of};

use crate::runs::runs_of;
use xs_block::chain::Chain;
use xs_record::segment::{Run, Segment};
use xs_trace::item::Site;

/// The place of the tick of a number, from 1 on, among those of some items. It goes through them up
/// to that tick.
pub(crate) fn site_at(items: &Chain<Segment>, n: u64) -> Option<Site>
    ensures { result ≡ site_at n (sites_in (items_of items.now)) }
{
    if n == 0 {
        return None;
    }
    let mut left = n;
    for segment in items.items() {
        match pass(segment, left) {
            Ok(rest) => left = rest,
            Err(site) => return Some(site),
        }
    }
    None
}

/// The number of the tick from the end of a segment on; its place, where the segment has it.
fn pass(segment: &Segment, left: u64) -> Result<u64, Site>
    requires some { 0 < left }
    ensures { Passes left (sites_in segment.now) result }
{
    let runs = runs_of(segment);
    let after_first = pass_run(runs.first, left)?;
    let after_last = pass_run(runs.last, after_first)?;
    pass_run(runs.own, after_last)
}

/// The same of ticks at one place.
fn pass_run(run: Run, left: u64) -> Result<u64, Site>
    requires some { 0 < left }
    ensures { Passes left (run_sites run) result }
{
    if left <= run.ticks {
        return Err(run.site);
    }
    Ok(left - run.ticks)
}
