//! The root is run, before the workers work.

ghost use Rattle.atomic_table.specs.Seated.{TableId};
ghost use Rattle.crossbeam_deque.specs.Handles.{stealer_deque};
ghost use Rattle.std.specs.List.{All};
ghost use Rattle.std.specs.Prelude.{◌≡◌, ◌+◌, ◌<◌, ◌≤◌, ◌^◌, ℕ, IfOk, List, length, map, reverse};
ghost use Rattle.xs_core.specs.Good.{total};
ghost use Rattle.xs_ledger.specs.Shares.{ledger_id, seats_of};
ghost use Rattle.xs_pieces.specs.Ready.{IsReady};
ghost use Rattle.xs_pool.specs.Known.{IsKnown};
ghost use Rattle.xs_pool.specs.Owners.{parts_of};
ghost use Rattle.xs_pool.specs.Rights.{DequeId};
ghost use Rattle.xs_pool.specs.Starts.{AreNumbered, IsNew};
ghost use Rattle.xs_pool.specs.Workers.{came_to, deque_of, held_by, ledger_of, IsWorking};

use crate::crew::Crew;
use crate::ear::Ear;
use crate::log::Turn;
use crate::member::Member;
use crate::moves::give;
use crate::rule::Known;
use crate::seats::{Seated, seat_all};
use crate::turn::run_task;
use std::alloc::AllocError;
use xs_ledger::total::LedgerTotal;
use xs_outside::Gate;
use xs_pieces::runner::PieceRunner;

/// All workers. The first has run the root, and what that leaves waits in its deque.
pub(crate) fn begin<K: Known<R::Task>, R: PieceRunner<LedgerTotal>, G: Gate, H: Ear>(
    crew: &Crew<'_, R, G>,
    root: R::Task,
    ear: &mut H,
) -> Result<Seated<R::Task, K>, AllocError>
    requires ready { IsReady (R.is_own crew.now.runner.now) (R.place_of crew.now.runner.now)
        (R.own crew.now.runner.now) (R.whole crew.now.runner.now) }
    requires known { IsKnown (R.is_own crew.now.runner.now) (R.place_of crew.now.runner.now)
        (R.own crew.now.runner.now) K.fits K.waits }
    requires root { K.fits root }
    requires count { (0 < crew.now.count) × (crew.now.count ≤ 64) }
    requires limit { crew.now.limits.ticks ≤ 2 ^ 40 }
    ensures seats { IfOk result (λ b. seats_of b.ledger.value ≡ crew.now.count) }
    ensures count { IfOk result (λ b. length b.members.items ≡ crew.now.count) }
    ensures ends { IfOk result (λ b. length b.thieves.items ≡ crew.now.count) }
    ensures deques { IfOk result (λ b.
        map deque_of (reverse b.members.items) ≡ map stealer_deque b.thieves.items) }
    ensures numbers { IfOk result (λ b. AreNumbered crew.now.count b.members.items) }
    ensures works { IfOk result (λ b. All (IsWorking (R.place_of crew.now.runner.now)
        (R.own crew.now.runner.now) K.fits K.waits crew.now.limits crew.now.count
        (map stealer_deque b.thieves.items)) b.members.items) }
    ensures shares { IfOk result (λ b.
        All (λ m. ledger_of m.desk.share ≡ ledger_id b.ledger.value) b.members.items) }
    ensures tally { IfOk result (λ b. (h : R.Task → ℕ) → total (held_by h) b.members.items
        ≡ total (came_to h (R.own crew.now.runner.now) crew.now.limits) b.members.items
        + h root) }
{
    let Seated {
        ledger,
        thieves,
        mut members,
    } = seat_all::<R::Task, K>(crew.alloc, crew.limits.ticks, crew.count)?;
    let Some(first) = members.pop() else {
        unreachable!()
    };
    let first = start::<K, R, G, H>(crew, first, root, ear)?;
    members.push(first)?;
    Ok(Seated {
        ledger,
        thieves,
        members,
    })
}

/// A worker that has run nothing runs the root, and gives what that leaves.
fn start<K: Known<R::Task>, R: PieceRunner<LedgerTotal>, G: Gate, H: Ear>(
    crew: &Crew<'_, R, G>,
    member: Member<R::Task, K>,
    root: R::Task,
    ear: &mut H,
) -> Result<Member<R::Task, K>, AllocError>
    requires ready { IsReady (R.is_own crew.now.runner.now) (R.place_of crew.now.runner.now)
        (R.own crew.now.runner.now) (R.whole crew.now.runner.now) }
    requires known { IsKnown (R.is_own crew.now.runner.now) (R.place_of crew.now.runner.now)
        (R.own crew.now.runner.now) K.fits K.waits }
    requires root { K.fits root }
    requires count { 0 < crew.now.count }
    requires first { member.number ≡ 0 }
    requires parts { 0 < parts_of member.deque }
    requires new { (id : TableId) × (deques : List DequeId)
        × IsNew id crew.now.limits.ticks crew.now.count deques member }
    ensures new { IfOk result (λ m. (id : TableId) (deques : List DequeId) →
        IsNew id crew.now.limits.ticks crew.now.count deques member →
        IsWorking (R.place_of crew.now.runner.now) (R.own crew.now.runner.now) K.fits K.waits
        crew.now.limits crew.now.count deques m × (ledger_of m.desk.share ≡ id)) }
    ensures number { IfOk result (λ m. m.number ≡ member.number) }
    ensures deque { IfOk result (λ m. deque_of m ≡ deque_of member) }
    ensures tally { IfOk result (λ m. (h : R.Task → ℕ) → held_by h m
        ≡ came_to h (R.own crew.now.runner.now) crew.now.limits m + h root) }
{
    let Member {
        number,
        mut deque,
        rights,
        desk,
        mut log,
        mut kept,
    } = member;
    let turn = run_task::<K, R, LedgerTotal, G, H>(crew, number, &mut log, desk, root, ear)?;
    let Turn { desk, children } = turn;
    give::<R::Task, K>(&mut deque, &mut kept, children)?;
    Ok(Member {
        number,
        deque,
        rights,
        desk,
        log,
        kept,
    })
}
