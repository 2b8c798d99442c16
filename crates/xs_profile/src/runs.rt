//! The ticks of a segment.

ghost use Rattle.std.specs.Prelude.{◌≡◌, ◌∷◌, []};
ghost use Rattle.xs_profile.specs.Sites.{sites_in};
ghost use Rattle.xs_profile.specs.steps.Runs.{run_sites, runs_sites};

use xs_record::segment::{Run, Segment};
use xs_trace::item::{Item, Site};

/// The ticks of a segment: those of two places before its item, and its item's own.
#[derive(Clone, Copy, Debug)]
pub(crate) struct Runs {
    pub(crate) first: Run,
    pub(crate) last: Run,
    pub(crate) own: Run,
}

/// Those of a segment.
#[inline(always)]
pub(crate) fn runs_of(segment: &Segment) -> Runs
    ensures { runs_sites result ≡ sites_in segment.now }
{
    let content = segment.content();
    Runs {
        first: content.first,
        last: content.last,
        own: run_of(content.item),
    }
}

/// The ticks of an item.
#[inline(always)]
fn run_of(item: &Item) -> Run
    ensures { run_sites result ≡ sites_in (item.now ∷ []) }
{
    match item {
        Item::Run {
            module,
            line,
            ticks,
        } => Run {
            site: Site {
                module: *module,
                line: *line,
            },
            ticks: *ticks,
        },
        Item::Put(_) | Item::Say(_) => no_run(),
    }
}

/// No ticks.
#[inline(always)]
fn no_run() -> Run
    ensures { run_sites result ≡ [] }
{
    Run {
        site: Site { module: 0, line: 0 },
        ticks: 0,
    }
}
