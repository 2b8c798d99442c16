//! An evaluation over any recorder, and what it gives as a piece of a run and as a whole run.

ghost use Rattle.std.specs.Prelude.{◌≡◌, ℕ, ◌+◌, ◌≤◌, ◌^◌, Some, None, true, IsSome, IfOk};
ghost use Rattle.xs_trace.specs.Play.{IsStep, play};
ghost use Rattle.xs_record.specs.Outcome.{IsOutcome};
ghost use Rattle.xs_record.specs.Piece.{IsPiece, started};
ghost use Rattle.unit_tests.specs.Probe.{tiny};

use std::alloc::{AllocError, Global};
use xs_block::pool::Pool;
use xs_record::outcome::Outcome;
use xs_record::piece::{Finished, PieceRecorder};
use xs_trace::event::Event;
use xs_trace::item::{Limits, Site};
use xs_trace::recorder::{Halt, Recorder, Tally};
use xs_trace::total::{LocalTotal, Total};

/// A tick, an event, and a hole where there is a task.
fn evaluate<R: Recorder<Task = u64>>(
    recorder: &mut R,
    site: Site,
    event: Event,
    task: Option<u64>,
) -> Result<(), Halt>
    requires holes { IsSome task → R.takes_holes ≡ true }
    ensures reported { IsStep (play (tiny site event task) (R.state recorder.old))
        result (R.state recorder.new) }
    ensures kept { R.kept recorder.new ≡ R.kept recorder.old }
{
    recorder.tick(site)?;
    recorder.put(event)?;
    match task {
        None => Ok(()),
        Some(task) => recorder.hole(task),
    }
}

/// A piece that leaves a hole, with a share in a total.
pub(crate) fn run_piece<T: Total + Drop>(
    mut recorder: PieceRecorder<T, u64>,
    site: Site,
    event: Event,
    children: &mut Vec<u64>,
) -> Finished<T>
    requires begins { ⟦<PieceRecorder<T, u64> as Tally>⟧.state recorder
        ≡ started (⟦<PieceRecorder<T, u64> as Tally>⟧.kept recorder).limits
        (⟦<PieceRecorder<T, u64> as Tally>⟧.kept recorder).most 0 }
    ensures piece { IfOk result.outcome (λ o. (before : ℕ) →
        (⟦<PieceRecorder<T, u64> as Tally>⟧.kept recorder).all
        ≡ before + (⟦<PieceRecorder<T, u64> as Tally>⟧.kept recorder).limits.ticks →
        IsPiece (tiny site event (Some 7))
        (⟦<PieceRecorder<T, u64> as Tally>⟧.kept recorder).limits
        (⟦<PieceRecorder<T, u64> as Tally>⟧.kept recorder).most before
        (T.added result.total) (T.last result.total)
        children.old.items children.new.items o) }
{
    let reported = evaluate(&mut recorder, site, event, Some(7));
    recorder.finish(reported, children)
}

/// A whole run, which leaves no hole and has a total of its own.
pub(crate) fn run_whole(
    alloc: Global,
    limits: Limits,
    site: Site,
    event: Event,
) -> Result<Outcome, AllocError>
    requires small { limits.ticks ≤ 2 ^ 40 }
    ensures outcome { IfOk result (IsOutcome (tiny site event None) limits) }
{
    let total = LocalTotal::new(limits.ticks, 0);
    let mut recorder = PieceRecorder::new(alloc, limits, total, Pool::new(alloc));
    let reported = evaluate(&mut recorder, site, event, None);
    let mut children = Vec::new(alloc);
    recorder.finish(reported, &mut children).outcome
}
