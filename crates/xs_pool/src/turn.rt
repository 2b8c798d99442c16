//! One task is run.

ghost use Rattle.std.specs.List.{All};
ghost use Rattle.std.specs.Prelude.{◌≡◌, ◌+◌, ◌<◌, ◌≤◌, ◌++◌, ◌∷◌, [], ℕ, IfOk, OnOk};
ghost use Rattle.xs_core.specs.Good.{total};
ghost use Rattle.xs_pieces.specs.Ready.{IsReady};
ghost use Rattle.xs_pool.specs.Known.{IsKnown};
ghost use Rattle.xs_pool.specs.Logs.{all_left, run_in, spent_in, stopped_in, IsLog};

use crate::crew::Crew;
use crate::ear::Ear;
use crate::log::{Log, Turn};
use crate::rule::Known;
use std::alloc::AllocError;
use xs_core::place::Claim;
use xs_outside::Gate;
use xs_pieces::piece::{Desk, Piece, Ran};
use xs_pieces::runner::{PieceRunner, Runner};
use xs_trace::total::Total;

/// A worker claims a task, passes the gate, and runs it; then the ear hears what it did, unless it
/// ended in the total.
pub(crate) fn run_task<K, R, S, G, H>(
    crew: &Crew<'_, R, G>,
    worker: u32,
    log: &mut Log<R::Task>,
    desk: Desk<S>,
    task: R::Task,
    ear: &mut H,
) -> Result<Turn<R::Task, S>, AllocError>
where
    K: Known<R::Task>,
    R: PieceRunner<S>,
    S: Total + Drop,
    G: Gate,
    H: Ear,
    requires ready { IsReady (R.is_own crew.now.runner.now) (R.place_of crew.now.runner.now)
        (R.own crew.now.runner.now) (R.whole crew.now.runner.now) }
    requires known { IsKnown (R.is_own crew.now.runner.now) (R.place_of crew.now.runner.now)
        (R.own crew.now.runner.now) K.fits K.waits }
    requires worker { worker < crew.now.count }
    requires task { K.fits task }
    requires root { R.place_of crew.now.runner.now task ≡ [] → worker ≡ 0 }
    requires most { S.most desk.share ≡ crew.now.limits.ticks }
    requires open { S.last desk.share ≤ crew.now.limits.ticks }
    requires log { IsLog (R.place_of crew.now.runner.now) (R.own crew.now.runner.now) K.fits
        crew.now.limits crew.now.count log.old.pieces.items log.old.claims.items }
    ensures kept { IfOk result (λ n. S.kept n.desk.share ≡ S.kept desk.share) }
    ensures most { IfOk result (λ n. S.most n.desk.share ≡ crew.now.limits.ticks) }
    ensures log { OnOk result (IsLog (R.place_of crew.now.runner.now) (R.own crew.now.runner.now)
        K.fits crew.now.limits crew.now.count log.new.pieces.items log.new.claims.items) }
    ensures claimed { OnOk result (log.new.claims.items ≡ log.old.claims.items
        ++ record { worker = worker; place = R.place_of crew.now.runner.now task } ∷ []) }
    ensures children { IfOk result (λ n. All K.waits n.children.items) }
    ensures run { OnOk result ((h : R.Task → ℕ) →
        run_in h log.new.pieces.items ≡ run_in h log.old.pieces.items + h task) }
    ensures left { IfOk result (λ n. (h : R.Task → ℕ) →
        all_left h (R.own crew.now.runner.now) crew.now.limits log.new.pieces.items
        ≡ all_left h (R.own crew.now.runner.now) crew.now.limits log.old.pieces.items
        + total h n.children.items) }
    ensures spent { IfOk result (λ n. spent_in log.new.pieces.items + S.added desk.share
        ≡ spent_in log.old.pieces.items + S.added n.desk.share) }
    ensures once { OnOk result
        (stopped_in log.new.pieces.items ≤ stopped_in log.old.pieces.items + 1) }
    ensures stopped { IfOk result (λ n. S.last n.desk.share ≤ crew.now.limits.ticks →
        stopped_in log.new.pieces.items ≡ stopped_in log.old.pieces.items) }
{
    claim(crew.runner, worker, &mut log.claims, &task)?;
    crew.gate.pass(worker, log.claims.len() as u64);
    let mut children = Vec::new(crew.alloc);
    let Ran { outcome, desk } = crew
        .runner
        .run(crew.alloc, &task, crew.limits, desk, &mut children);
    let outcome = outcome?;
    if outcome.is_done() {
        ear.hear(crew.runner.place(&task), &outcome)?;
        log.pieces.push(Piece {
            task,
            outcome: Some(outcome),
        })?;
        return Ok(Turn { desk, children });
    }
    log.pieces.push(Piece {
        task,
        outcome: Some(outcome),
    })?;
    Ok(Turn {
        desk,
        children: Vec::new(crew.alloc),
    })
}

/// A worker claims the piece of a task.
fn claim<R: Runner>(
    runner: &R,
    worker: u32,
    claims: &mut Vec<Claim>,
    task: &R::Task,
) -> Result<(), AllocError>
    ensures claimed { OnOk result (claims.new.items ≡ claims.old.items
        ++ record { worker = worker; place = R.place_of runner.now task.now } ∷ []) }
{
    let place = runner.place(task).copy()?;
    claims.push(Claim { worker, place })?;
    Ok(())
}
