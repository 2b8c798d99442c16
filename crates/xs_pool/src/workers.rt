//! All workers work.

ghost use Rattle.crossbeam_deque.specs.Handles.{stealer_deque};
ghost use Rattle.std.specs.List.{All};
ghost use Rattle.std.specs.Prelude.{◌≡◌, ◌<◌, IfOk, Ok, length, map};
ghost use Rattle.std.specs.Thread.{IsSend, IsSync};
ghost use Rattle.xs_pieces.specs.Ready.{IsReady};
ghost use Rattle.xs_pool.specs.Known.{IsKnown};
ghost use Rattle.xs_pool.specs.Workers.{HaveWorked, IsSame, IsWorking};

use crate::crew::Crew;
use crate::ear::{Deaf, Ear};
use crate::member::Member;
use crate::moves::{begin_rest, end_rest};
use crate::rule::{Known, Thief};
use crate::work::work;
use std::alloc::{AllocError, Global};
use std::sync::atomic::AtomicU64;
use std::thread::{Threads, join, map_vec};
use xs_ledger::total::LedgerTotal;
use xs_outside::Gate;
use xs_pieces::runner::PieceRunner;

/// All workers work: the last of the list on this thread, where the ear is, and the others, idle
/// until they begin, on threads of their own where such can be made. One alone starts no thread.
pub(crate) fn all_work<X, K, R, G, H>(
    rt: &X,
    crew: &Crew<'_, R, G>,
    thieves: &[Thief<R::Task, K>],
    idle: &AtomicU64,
    mut members: Vec<Member<R::Task, K>>,
    ear: &mut H,
) -> Result<Vec<Member<R::Task, K>>, AllocError>
where
    X: Threads + Sync,
    K: Known<R::Task> + Send + Sync,
    R: PieceRunner<LedgerTotal> + Sync,
    R::Task: Send,
    G: Gate,
    H: Ear,
    requires ready { IsReady (R.is_own crew.now.runner.now) (R.place_of crew.now.runner.now)
        (R.own crew.now.runner.now) (R.whole crew.now.runner.now) }
    requires known { IsKnown (R.is_own crew.now.runner.now) (R.place_of crew.now.runner.now)
        (R.own crew.now.runner.now) K.fits K.waits }
    requires few { length thieves.now < 65 }
    requires some { 0 < length members.items }
    requires works { All (IsWorking (R.place_of crew.now.runner.now) (R.own crew.now.runner.now)
        K.fits K.waits crew.now.limits crew.now.count (map stealer_deque thieves.now))
        members.items }
    ensures worked { IfOk result (λ ms. HaveWorked (R.place_of crew.now.runner.now)
        (R.own crew.now.runner.now) K.fits K.waits crew.now.limits crew.now.count
        (map stealer_deque thieves.now) members.items ms.items) }
{
    if members.len() < 2 {
        return work_alone::<K, R, G, H>(crew, thieves, idle, members, ear);
    }
    let alloc = crew.alloc;
    let runner = crew.runner;
    let gate = crew.gate;
    let limits = crew.limits;
    let count = crew.count;
    let Some(first) = members.pop() else {
        unreachable!()
    };
    let (others, first) = join(
        rt,
        move || -> Result<Vec<Member<R::Task, K>>, AllocError>
            requires { IsSync X.row × IsSend K.row × IsSync K.row × IsSync R.row
                × IsSend R.Task.row
                × IsReady (R.is_own runner.now) (R.place_of runner.now) (R.own runner.now)
                (R.whole runner.now)
                × IsKnown (R.is_own runner.now) (R.place_of runner.now) (R.own runner.now)
                K.fits K.waits × (length thieves.now < 65)
                × All (IsWorking (R.place_of runner.now) (R.own runner.now) K.fits K.waits limits
                count (map stealer_deque thieves.now)) members.items }
            ensures { IfOk result (λ ms. HaveWorked (R.place_of runner.entry.now)
                (R.own runner.entry.now) K.fits K.waits limits count
                (map stealer_deque thieves.entry.now) members.items ms.items) }
        {
            let crew = Crew {
                alloc,
                runner,
                gate,
                limits,
                count,
            };
            others_work::<X, K, R, G>(rt, &crew, thieves, idle, members)
        },
        move || -> Result<Member<R::Task, K>, AllocError>
            requires { IsReady (R.is_own runner.now) (R.place_of runner.now) (R.own runner.now)
                (R.whole runner.now)
                × IsKnown (R.is_own runner.now) (R.place_of runner.now) (R.own runner.now)
                K.fits K.waits × (length thieves.now < 65)
                × IsWorking (R.place_of runner.now) (R.own runner.now) K.fits K.waits limits
                count (map stealer_deque thieves.now) first }
            ensures { IfOk result (λ m. IsWorking (R.place_of runner.entry.now)
                (R.own runner.entry.now) K.fits K.waits limits count
                (map stealer_deque thieves.entry.now) m
                × IsSame (R.own runner.entry.now) limits first m) }
        {
            let crew = Crew {
                alloc,
                runner,
                gate,
                limits,
                count,
            };
            let after = work::<K, R, G, H>(&crew, thieves, idle, first, ear);
            rest_on_refusal(idle, after)
        },
    );
    let mut all = others?;
    all.push(first?)?;
    Ok(all)
}

/// The only worker works, on this thread.
fn work_alone<K: Known<R::Task>, R: PieceRunner<LedgerTotal>, G: Gate, H: Ear>(
    crew: &Crew<'_, R, G>,
    thieves: &[Thief<R::Task, K>],
    idle: &AtomicU64,
    mut members: Vec<Member<R::Task, K>>,
    ear: &mut H,
) -> Result<Vec<Member<R::Task, K>>, AllocError>
    requires ready { IsReady (R.is_own crew.now.runner.now) (R.place_of crew.now.runner.now)
        (R.own crew.now.runner.now) (R.whole crew.now.runner.now) }
    requires known { IsKnown (R.is_own crew.now.runner.now) (R.place_of crew.now.runner.now)
        (R.own crew.now.runner.now) K.fits K.waits }
    requires few { length thieves.now < 65 }
    requires one { (0 < length members.items) × (length members.items < 2) }
    requires works { All (IsWorking (R.place_of crew.now.runner.now) (R.own crew.now.runner.now)
        K.fits K.waits crew.now.limits crew.now.count (map stealer_deque thieves.now))
        members.items }
    ensures worked { IfOk result (λ ms. HaveWorked (R.place_of crew.now.runner.now)
        (R.own crew.now.runner.now) K.fits K.waits crew.now.limits crew.now.count
        (map stealer_deque thieves.now) members.items ms.items) }
{
    let Some(member) = members.pop() else {
        unreachable!()
    };
    let after = work::<K, R, G, H>(crew, thieves, idle, member, ear)?;
    members.push(after)?;
    Ok(members)
}

/// Some workers work, each on a thread of its own where one can be made.
fn others_work<
    X: Threads + Sync,
    K: Known<R::Task> + Send + Sync,
    R: PieceRunner<LedgerTotal> + Sync,
    G: Gate,
>(
    rt: &X,
    crew: &Crew<'_, R, G>,
    thieves: &[Thief<R::Task, K>],
    idle: &AtomicU64,
    members: Vec<Member<R::Task, K>>,
) -> Result<Vec<Member<R::Task, K>>, AllocError>
where
    R::Task: Send,
    requires ready { IsReady (R.is_own crew.now.runner.now) (R.place_of crew.now.runner.now)
        (R.own crew.now.runner.now) (R.whole crew.now.runner.now) }
    requires known { IsKnown (R.is_own crew.now.runner.now) (R.place_of crew.now.runner.now)
        (R.own crew.now.runner.now) K.fits K.waits }
    requires few { length thieves.now < 65 }
    requires works { All (IsWorking (R.place_of crew.now.runner.now) (R.own crew.now.runner.now)
        K.fits K.waits crew.now.limits crew.now.count (map stealer_deque thieves.now))
        members.items }
    ensures worked { IfOk result (λ ms. HaveWorked (R.place_of crew.now.runner.now)
        (R.own crew.now.runner.now) K.fits K.waits crew.now.limits crew.now.count
        (map stealer_deque thieves.now) members.items ms.items) }
{
    let alloc = crew.alloc;
    let runner = crew.runner;
    let gate = crew.gate;
    let limits = crew.limits;
    let count = crew.count;
    let results = map_vec(
        rt,
        members,
        &|member: Member<R::Task, K>| -> Result<Member<R::Task, K>, AllocError>
            requires { IsReady (R.is_own runner.now) (R.place_of runner.now) (R.own runner.now)
                (R.whole runner.now)
                × IsKnown (R.is_own runner.now) (R.place_of runner.now) (R.own runner.now)
                K.fits K.waits × (length thieves.now < 65)
                × IsWorking (R.place_of runner.now) (R.own runner.now) K.fits K.waits limits
                count (map stealer_deque thieves.now) member }
            ensures { IfOk result (λ m. IsWorking (R.place_of runner.entry.now)
                (R.own runner.entry.now) K.fits K.waits limits count
                (map stealer_deque thieves.entry.now) m
                × IsSame (R.own runner.entry.now) limits member m) }
        {
            let crew = Crew {
                alloc,
                runner,
                gate,
                limits,
                count,
            };
            end_rest(idle);
            let after = work::<K, R, G, Deaf>(&crew, thieves, idle, member, &mut Deaf);
            rest_on_refusal(idle, after)
        },
    )?;
    all_ok(alloc, results)
}

/// A worker that ran out of memory is idle.
fn rest_on_refusal<T>(idle: &AtomicU64, after: Result<T, AllocError>) -> Result<T, AllocError>
    ensures { result ≡ after }
{
    if after.is_err() {
        begin_rest(idle);
    }
    after
}

/// All that came, unless one ran out of memory.
fn all_ok<T: Drop>(
    alloc: Global,
    mut results: Vec<Result<T, AllocError>>,
) -> Result<Vec<T>, AllocError>
    ensures all { IfOk result (λ xs. map Ok xs.items ≡ results.items) }
{
    results.reverse();
    let mut all = Vec::new(alloc);
    while let Some(one) = results.pop() {
        all.push(one?)?;
    }
    Ok(all)
}
