//! The next piece that waits is run.

ghost use Rattle.std.specs.Prelude.{◌≡◌, ◌++◌, ◌<◌, ◌≤◌, ◌+◌, length, map, IfOk, OnOk};
ghost use Rattle.xs_pieces.specs.Ready.{IsReady};
ghost use Rattle.xs_pool.specs.steps.Running.{waiting, ran_at, IsRun, IsNext};

use std::alloc::{AllocError, Global};
use xs_pieces::piece::{Desk, Piece, Ran};
use xs_pieces::runner::PieceRunner;
use xs_record::outcome::Outcome;
use xs_trace::item::Limits;
use xs_trace::total::Total;

/// The desk after a piece was run, and whether that ended in the total.
#[derive(Drop)]
pub(crate) struct Next<T> {
    pub(crate) desk: Desk<T>,
    pub(crate) is_over: bool,
}

/// Runs the piece at an index. Its children wait, unless it ended in the total.
pub(crate) fn run_next<R, T>(
    alloc: Global,
    runner: &R,
    pieces: &mut Vec<Piece<R::Task>>,
    index: usize,
    limits: Limits,
    desk: Desk<T>,
) -> Result<Next<T>, AllocError>
where
    R: PieceRunner<T>,
    T: Total + Drop,
    requires ready { IsReady (R.is_own runner.now) (R.place_of runner.now) (R.own runner.now)
        (R.whole runner.now) }
    requires within { index < length pieces.old.items }
    requires run { (root : R.Task) × IsRun (R.is_own runner.now) (R.place_of runner.now)
        (R.own runner.now) root limits index (T.added desk.share) pieces.old.items }
    requires most { T.most desk.share ≡ limits.ticks }
    requires open { T.last desk.share ≤ limits.ticks }
    ensures kept { IfOk result (λ n. T.kept n.desk.share ≡ T.kept desk.share) }
    ensures most { IfOk result (λ n. T.most n.desk.share ≡ limits.ticks) }
    ensures next { IfOk result (λ n. (root : R.Task) →
        IsRun (R.is_own runner.now) (R.place_of runner.now) (R.own runner.now) root limits index
        (T.added desk.share) pieces.old.items →
        IsNext (R.is_own runner.now) (R.place_of runner.now) (R.own runner.now) root limits index
        (T.added desk.share) (T.added n.desk.share) (T.last n.desk.share) n.is_over
        pieces.old.items pieces.new.items) }
{
    let mut children = Vec::new(alloc);
    let Ran { outcome, desk } = runner.run(alloc, &pieces[index].task, limits, desk, &mut children);
    let outcome = outcome?;
    let is_done = outcome.is_done();
    set_outcome(pieces, index, outcome);
    if !is_done {
        return Ok(Next {
            desk,
            is_over: true,
        });
    }
    push_waiting(pieces, children)?;
    Ok(Next {
        desk,
        is_over: false,
    })
}

/// Says what the piece at an index did.
fn set_outcome<T: Drop>(pieces: &mut Vec<Piece<T>>, index: usize, outcome: Outcome)
    requires within { index < length pieces.old.items }
    ensures ran { pieces.new.items ≡ ran_at index outcome pieces.old.items }
{
    pieces[index].outcome = Some(outcome);
}

/// Appends pieces that wait, in order.
pub(crate) fn push_waiting<T: Drop>(
    pieces: &mut Vec<Piece<T>>,
    tasks: Vec<T>,
) -> Result<(), AllocError>
    ensures pushed { OnOk result
        (pieces.new.items ≡ pieces.old.items ++ map waiting tasks.items) }
{
    let mut tasks = tasks;
    pieces.reserve(tasks.len())?;
    tasks.reverse();
    while let Some(task) = tasks.pop() {
        pieces.push(Piece {
            task,
            outcome: None,
        })?;
    }
    Ok(())
}
