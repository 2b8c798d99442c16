//! A worker works.

ghost use Rattle.crossbeam_deque.specs.Handles.{stealer_deque};
ghost use Rattle.std.specs.Prelude.{◌≡◌, ◌<◌, IfOk, length, map};
ghost use Rattle.xs_pieces.specs.Ready.{IsReady};
ghost use Rattle.xs_pool.specs.Known.{IsKnown};
ghost use Rattle.xs_pool.specs.Workers.{IsSame, IsWorking};

use crate::crew::Crew;
use crate::ear::Ear;
use crate::log::Turn;
use crate::member::Member;
use crate::moves::{begin_rest, find, give};
use crate::rule::{Known, Thief};
use crate::turn::run_task;
use std::alloc::AllocError;
use std::sync::atomic::AtomicU64;
use xs_ledger::total::LedgerTotal;
use xs_outside::Gate;
use xs_pieces::runner::PieceRunner;
use xs_trace::total::Total;

/// Runs the last task that it gave, or else steals the first of another worker, until none was
/// there for a while, all are idle, or an addition of its own came above the limit.
pub(crate) fn work<K, R, G, H>(
    crew: &Crew<'_, R, G>,
    thieves: &[Thief<R::Task, K>],
    idle: &AtomicU64,
    member: Member<R::Task, K>,
    ear: &mut H,
) -> Result<Member<R::Task, K>, AllocError>
where
    K: Known<R::Task>,
    R: PieceRunner<LedgerTotal>,
    G: Gate,
    H: Ear,
    requires ready { IsReady (R.is_own crew.now.runner.now) (R.place_of crew.now.runner.now)
        (R.own crew.now.runner.now) (R.whole crew.now.runner.now) }
    requires known { IsKnown (R.is_own crew.now.runner.now) (R.place_of crew.now.runner.now)
        (R.own crew.now.runner.now) K.fits K.waits }
    requires few { length thieves.now < 65 }
    requires works { IsWorking (R.place_of crew.now.runner.now) (R.own crew.now.runner.now)
        K.fits K.waits crew.now.limits crew.now.count (map stealer_deque thieves.now) member }
    ensures works { IfOk result (λ m. IsWorking (R.place_of crew.now.runner.now)
        (R.own crew.now.runner.now) K.fits K.waits crew.now.limits crew.now.count
        (map stealer_deque thieves.now) m) }
    ensures same { IfOk result (λ m.
        IsSame (R.own crew.now.runner.now) crew.now.limits member m) }
{
    let Member {
        number,
        mut deque,
        mut rights,
        desk,
        mut log,
        mut kept,
    } = member;
    let mut desk = desk;
    for _turn in 0..u64::MAX {
        if desk.share.above().is_some() {
            begin_rest(idle);
            return Ok(Member {
                number,
                deque,
                rights,
                desk,
                log,
                kept,
            });
        }
        let Some(task) = find::<R::Task, K>(
            &mut deque,
            &mut kept,
            thieves,
            &mut rights,
            number as usize,
            idle,
        ) else {
            return Ok(Member {
                number,
                deque,
                rights,
                desk,
                log,
                kept,
            });
        };
        let turn = run_task::<K, R, LedgerTotal, G, H>(crew, number, &mut log, desk, task, ear)?;
        let Turn {
            desk: after,
            children,
        } = turn;
        desk = after;
        give::<R::Task, K>(&mut deque, &mut kept, children)?;
    }
    Err(AllocError)
}
