//! What is left is run on the caller's thread.

ghost use Rattle.std.specs.List.{All};
ghost use Rattle.std.specs.Prelude.{◌≡◌, ◌+◌, ◌<◌, ◌≤◌, [], ℕ, IfOk, OnOk};
ghost use Rattle.xs_core.specs.Good.{total};
ghost use Rattle.xs_pieces.specs.Ready.{IsReady};
ghost use Rattle.xs_pool.specs.Known.{IsKnown};
ghost use Rattle.xs_pool.specs.Logs.{all_left, run_in, spent_in, stopped_in, IsLog};
ghost use Rattle.xs_pool.specs.Workers.{added_of, last_of, ledger_of, most_of};

use crate::crew::Crew;
use crate::desks::is_above;
use crate::ear::Ear;
use crate::log::{Log, Turn};
use crate::rule::Known;
use crate::turn::run_task;
use std::alloc::AllocError;
use xs_ledger::total::LedgerTotal;
use xs_outside::Gate;
use xs_pieces::piece::Desk;
use xs_pieces::runner::PieceRunner;
use xs_trace::total::Total;

/// Runs what is left, as the first worker, until nothing is, or an addition of its own came above
/// the limit; nothing where one of another worker did.
pub(crate) fn finish<K, R, G, H>(
    crew: &Crew<'_, R, G>,
    others: &[Desk<LedgerTotal>],
    log: &mut Log<R::Task>,
    desk: Desk<LedgerTotal>,
    left: &mut Vec<R::Task>,
    ear: &mut H,
) -> Result<Desk<LedgerTotal>, AllocError>
where
    K: Known<R::Task>,
    R: PieceRunner<LedgerTotal>,
    G: Gate,
    H: Ear,
    requires ready { IsReady (R.is_own crew.now.runner.now) (R.place_of crew.now.runner.now)
        (R.own crew.now.runner.now) (R.whole crew.now.runner.now) }
    requires known { IsKnown (R.is_own crew.now.runner.now) (R.place_of crew.now.runner.now)
        (R.own crew.now.runner.now) K.fits K.waits }
    requires count { 0 < crew.now.count }
    requires left { All K.waits left.old.items }
    requires others { All (λ d. most_of d.share ≡ crew.now.limits.ticks) others.now }
    requires most { most_of desk.share ≡ crew.now.limits.ticks }
    requires log { IsLog (R.place_of crew.now.runner.now) (R.own crew.now.runner.now) K.fits
        crew.now.limits crew.now.count log.old.pieces.items log.old.claims.items }
    requires stopped { last_of desk.share ≤ crew.now.limits.ticks →
        stopped_in log.old.pieces.items ≡ 0 }
    requires once { stopped_in log.old.pieces.items ≤ 1 }
    ensures share { IfOk result (λ d. ledger_of d.share ≡ ledger_of desk.share) }
    ensures most { IfOk result (λ d. most_of d.share ≡ crew.now.limits.ticks) }
    ensures left { OnOk result (All K.waits left.new.items) }
    ensures log { OnOk result (IsLog (R.place_of crew.now.runner.now) (R.own crew.now.runner.now)
        K.fits crew.now.limits crew.now.count log.new.pieces.items log.new.claims.items) }
    ensures tally { OnOk result ((h : R.Task → ℕ) →
        (run_in h log.new.pieces.items + total h left.new.items)
        + all_left h (R.own crew.now.runner.now) crew.now.limits log.old.pieces.items
        ≡ (run_in h log.old.pieces.items + total h left.old.items)
        + all_left h (R.own crew.now.runner.now) crew.now.limits log.new.pieces.items) }
    ensures spent { IfOk result (λ d. spent_in log.new.pieces.items + added_of desk.share
        ≡ spent_in log.old.pieces.items + added_of d.share) }
    ensures once { OnOk result (stopped_in log.new.pieces.items ≤ 1) }
    ensures before { IfOk result (λ d. last_of d.share ≤ crew.now.limits.ticks →
        last_of desk.share ≤ crew.now.limits.ticks) }
    ensures done { IfOk result (λ d. last_of d.share ≤ crew.now.limits.ticks →
        All (λ e. last_of e.share ≤ crew.now.limits.ticks) others.now → (left.new.items ≡ [])
        × (stopped_in log.new.pieces.items ≡ stopped_in log.old.pieces.items)) }
{
    let mut desk = desk;
    if is_above(others) {
        return Ok(desk);
    }
    for _turn in 0..u64::MAX {
        if desk.share.above().is_some() {
            return Ok(desk);
        }
        let Some(task) = left.pop() else {
            return Ok(desk);
        };
        let turn = run_task::<K, R, LedgerTotal, G, H>(crew, 0, log, desk, task, ear)?;
        let Turn {
            desk: after,
            mut children,
        } = turn;
        desk = after;
        children.reverse();
        left.append(&mut children)?;
    }
    Err(AllocError)
}
