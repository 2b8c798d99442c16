//! All pieces, by 1 to 64 workers.

ghost use Rattle.std.specs.List.{All};
ghost use Rattle.std.specs.Prelude.{◌≡◌, ◌+◌, ◌*◌, ◌<◌, ◌≤◌, ◌^◌, [], ℕ, IfOk, length};
ghost use Rattle.xs_core.specs.Good.{total};
ghost use Rattle.xs_ledger.specs.Shares.{ledger_id, seats_of};
ghost use Rattle.xs_pieces.specs.Collection.{AreClaims, IsCollection};
ghost use Rattle.xs_pieces.specs.Ready.{IsReady};
ghost use Rattle.xs_pool.specs.Known.{IsInTree, IsKnown};
ghost use Rattle.xs_pool.specs.Logs.{all_left, run_in, spent_in, stopped_in, IsLog};
ghost use Rattle.xs_pool.specs.Workers.{added_of, ledger_of, most_of, HaveStopped};

use crate::begin::begin;
use crate::crew::Crew;
use crate::desks::close_desks;
use crate::ear::Ear;
use crate::finish::finish;
use crate::gather::{Gathered, gather};
use crate::log::Log;
use crate::member::Member;
use crate::next::push_waiting;
use crate::rule::Known;
use crate::seats::Seated;
use crate::workers::all_work;
use std::alloc::AllocError;
use std::marker::Brand;
use std::sync::Arc;
use std::sync::atomic::AtomicU64;
use std::thread::Threads;
use xs_ledger::ledger::Ledger;
use xs_ledger::total::LedgerTotal;
use xs_outside::Gate;
use xs_pieces::piece::{Collected, Desk};
use xs_pieces::runner::PieceRunner;

/// What all workers did, with their ledger.
#[derive(Drop)]
struct Worked<T> {
    ledger: Arc<Ledger>,
    desks: Vec<Desk<LedgerTotal>>,
    logs: Vec<Log<T>>,
    left: Vec<T>,
}

/// Runs the root's task and all that tasks leave, by so many workers, until all have been run or
/// the total is above the limit. Pieces that are left then were not run.
pub fn run_pool<X: Threads + Sync, R: PieceRunner<LedgerTotal> + Sync, G: Gate, H: Ear>(
    rt: &X,
    crew: &Crew<'_, R, G>,
    root: R::Task,
    ear: &mut H,
) -> Result<Collected<R::Task>, AllocError>
where
    R::Task: Send,
    requires ready { IsReady (R.is_own crew.now.runner.now) (R.place_of crew.now.runner.now)
        (R.own crew.now.runner.now) (R.whole crew.now.runner.now) }
    requires root { R.is_own crew.now.runner.now root }
    requires place { R.place_of crew.now.runner.now root ≡ [] }
    requires count { (0 < crew.now.count) × (crew.now.count ≤ 64) }
    requires limit { crew.now.limits.ticks ≤ 2 ^ 40 }
    ensures collection { IfOk result (λ c. IsCollection (R.is_own crew.now.runner.now)
        (R.place_of crew.now.runner.now) (R.own crew.now.runner.now) root crew.now.limits
        c.pieces.items c.total) }
    ensures claims { IfOk result (λ c. AreClaims (R.place_of crew.now.runner.now) crew.now.count
        c.pieces.items c.claims.items) }
    ensures bounded { IfOk result (λ c.
        c.total ≤ crew.now.limits.ticks + 1024 * crew.now.count) }
    ensures turns { IfOk result (λ c. 0 < crew.now.limits.ticks →
        length c.claims.items ≤ c.total + crew.now.count) }
{
    run_known::<X, Brand, R, G, H>(rt, crew, root, ear)
}

/// The same, of tasks that a run knows.
fn run_known<
    X: Threads + Sync,
    K: Known<R::Task> + Send + Sync,
    R: PieceRunner<LedgerTotal> + Sync,
    G: Gate,
    H: Ear,
>(
    rt: &X,
    crew: &Crew<'_, R, G>,
    root: R::Task,
    ear: &mut H,
) -> Result<Collected<R::Task>, AllocError>
where
    R::Task: Send,
    requires ready { IsReady (R.is_own crew.now.runner.now) (R.place_of crew.now.runner.now)
        (R.own crew.now.runner.now) (R.whole crew.now.runner.now) }
    requires known { IsKnown (R.is_own crew.now.runner.now) (R.place_of crew.now.runner.now)
        (R.own crew.now.runner.now) K.fits K.waits }
    requires at { (t : R.Task) → K.fits t → IsInTree (R.is_own crew.now.runner.now)
        (R.place_of crew.now.runner.now) (R.own crew.now.runner.now) root t }
    requires root { K.fits root }
    requires place { R.place_of crew.now.runner.now root ≡ [] }
    requires count { (0 < crew.now.count) × (crew.now.count ≤ 64) }
    requires limit { crew.now.limits.ticks ≤ 2 ^ 40 }
    ensures collection { IfOk result (λ c. IsCollection (R.is_own crew.now.runner.now)
        (R.place_of crew.now.runner.now) (R.own crew.now.runner.now) root crew.now.limits
        c.pieces.items c.total) }
    ensures claims { IfOk result (λ c. AreClaims (R.place_of crew.now.runner.now) crew.now.count
        c.pieces.items c.claims.items) }
    ensures bounded { IfOk result (λ c.
        c.total ≤ crew.now.limits.ticks + 1024 * crew.now.count) }
    ensures turns { IfOk result (λ c. 0 < crew.now.limits.ticks →
        length c.claims.items ≤ c.total + crew.now.count) }
{
    let Worked {
        ledger,
        mut desks,
        mut logs,
        mut left,
    } = run_workers::<X, K, R, G, H>(rt, crew, root, ear)?;
    let desk = desks.remove(0);
    let mut log = logs.remove(0);
    let desk = finish::<K, R, G, H>(crew, &desks, &mut log, desk, &mut left, ear)?;
    desks.push(desk)?;
    log.append_all(logs)?;
    let total = close_desks(crew.alloc, &ledger, desks, crew.limits.ticks)?;
    let Log { mut pieces, claims } = log;
    push_waiting(&mut pieces, left)?;
    Ok(Collected {
        pieces,
        claims,
        total,
    })
}

/// All workers work, and what they did is brought together.
fn run_workers<
    X: Threads + Sync,
    K: Known<R::Task> + Send + Sync,
    R: PieceRunner<LedgerTotal> + Sync,
    G: Gate,
    H: Ear,
>(rt: &X, crew: &Crew<'_, R, G>, root: R::Task, ear: &mut H) -> Result<Worked<R::Task>, AllocError>
where
    R::Task: Send,
    requires ready { IsReady (R.is_own crew.now.runner.now) (R.place_of crew.now.runner.now)
        (R.own crew.now.runner.now) (R.whole crew.now.runner.now) }
    requires known { IsKnown (R.is_own crew.now.runner.now) (R.place_of crew.now.runner.now)
        (R.own crew.now.runner.now) K.fits K.waits }
    requires root { K.fits root }
    requires count { (0 < crew.now.count) × (crew.now.count ≤ 64) }
    requires limit { crew.now.limits.ticks ≤ 2 ^ 40 }
    ensures seats { IfOk result (λ c. seats_of c.ledger.value ≡ crew.now.count) }
    ensures count { IfOk result (λ c. length c.desks.items ≡ crew.now.count) }
    ensures shares { IfOk result (λ c.
        All (λ d. ledger_of d.share ≡ ledger_id c.ledger.value) c.desks.items) }
    ensures most { IfOk result (λ c.
        All (λ d. most_of d.share ≡ crew.now.limits.ticks) c.desks.items) }
    ensures each { IfOk result (λ c. length c.logs.items ≡ crew.now.count) }
    ensures logs { IfOk result (λ c. All (λ g. IsLog (R.place_of crew.now.runner.now)
        (R.own crew.now.runner.now) K.fits crew.now.limits crew.now.count g.pieces.items
        g.claims.items) c.logs.items) }
    ensures waits { IfOk result (λ c. All K.waits c.left.items) }
    ensures tally { IfOk result (λ c. (h : R.Task → ℕ) →
        total (λ g. run_in h g.pieces.items) c.logs.items + total h c.left.items
        ≡ h root + total (λ g. all_left h (R.own crew.now.runner.now) crew.now.limits
        g.pieces.items) c.logs.items) }
    ensures spent { IfOk result (λ c.
        total (λ g. spent_in g.pieces.items) c.logs.items
        ≡ total (λ d. added_of d.share) c.desks.items) }
    ensures stopped { IfOk result (λ c.
        HaveStopped crew.now.limits.ticks c.desks.items c.logs.items) }
    ensures once { IfOk result (λ c. All (λ g. stopped_in g.pieces.items ≤ 1) c.logs.items) }
{
    let Seated {
        ledger,
        thieves,
        members,
    } = begin::<K, R, G, H>(crew, root, ear)?;
    let idle = AtomicU64::new(u64::from(crew.count - 1));
    let members = all_work::<X, K, R, G, H>(rt, crew, &thieves, &idle, members, ear)?;
    hear_others::<K, R, H>(crew.runner, &members, ear)?;
    let Gathered { desks, logs, left } = gather::<R::Task, K>(crew.alloc, members)?;
    Ok(Worked {
        ledger,
        desks,
        logs,
        left,
    })
}

/// The ear hears what all workers but the first have finished.
fn hear_others<K: Known<R::Task>, R: PieceRunner<LedgerTotal>, H: Ear>(
    runner: &R,
    members: &[Member<R::Task, K>],
    ear: &mut H,
) -> Result<(), AllocError> {
    for member in members {
        if member.number > 0 {
            hear_finished::<R, H>(runner, &member.log, ear)?;
        }
    }
    Ok(())
}

/// The ear hears what of a log is finished.
fn hear_finished<R: PieceRunner<LedgerTotal>, H: Ear>(
    runner: &R,
    log: &Log<R::Task>,
    ear: &mut H,
) -> Result<(), AllocError> {
    for piece in &log.pieces {
        let Some(outcome) = piece.outcome.as_ref() else {
            continue;
        };
        if outcome.is_done() {
            ear.hear(runner.place(&piece.task), outcome)?;
        }
    }
    Ok(())
}
