//! All pieces on one thread, in any order.

ghost use Rattle.std.specs.Prelude.{◌≡◌, ◌++◌, ◌∷◌, ◌+◌, ◌<◌, ◌≤◌, ◌^◌, [], IfOk, OnOk, length};
ghost use Rattle.xs_pieces.specs.Collection.{AreClaims, IsCollection};
ghost use Rattle.xs_pieces.specs.Ready.{IsReady};
ghost use Rattle.xs_pool.specs.steps.Running.{waiting, IsRunTo};

use crate::desks::{Desks, close_desks, open_desks};
use crate::next::{Next, run_next};
use std::alloc::{AllocError, Global};
use xs_core::place::Claim;
use xs_ledger::total::LedgerTotal;
use xs_pieces::piece::{Collected, Desk, Piece};
use xs_pieces::runner::{PieceRunner, Runner};
use xs_trace::item::Limits;
use xs_trace::total::Total;

/// Pieces that were run, who claimed them, and the desk at which they were.
#[derive(Drop)]
struct Run<H, T> {
    pieces: Vec<Piece<H>>,
    claims: Vec<Claim>,
    desk: Desk<T>,
}

/// Runs the root's task and all that tasks leave, in an order, until all have been run or one ended
/// in the total. Of those that wait, the k-th to be run is the one with the k-th number; the first,
/// where there is no such number, or fewer wait.
pub fn run_in_order<R: PieceRunner<LedgerTotal>>(
    alloc: Global,
    runner: &R,
    root: R::Task,
    limits: Limits,
    order: &[u32],
) -> Result<Collected<R::Task>, AllocError>
    requires ready { IsReady (R.is_own runner.now) (R.place_of runner.now) (R.own runner.now)
        (R.whole runner.now) }
    requires root { R.is_own runner.now root }
    requires place { R.place_of runner.now root ≡ [] }
    requires limit { limits.ticks ≤ 2 ^ 40 }
    ensures collection { IfOk result (λ c. IsCollection (R.is_own runner.now)
        (R.place_of runner.now) (R.own runner.now) root limits c.pieces.items c.total) }
    ensures claims { IfOk result (λ c.
        AreClaims (R.place_of runner.now) 1 c.pieces.items c.claims.items) }
    ensures bounded { IfOk result (λ c. c.total ≤ limits.ticks + 1024) }
{
    let Desks { ledger, mut desks } = open_desks(alloc, limits.ticks, 1)?;
    let Some(desk) = desks.pop() else {
        unreachable!()
    };
    let ran = run_pieces(alloc, runner, root, limits, order, desk)?;
    let Run {
        pieces,
        claims,
        desk,
    } = ran;
    desks.push(desk)?;
    let total = close_desks(alloc, &ledger, desks, limits.ticks)?;
    Ok(Collected {
        pieces,
        claims,
        total,
    })
}

/// Runs the root's task and all that tasks leave, in an order.
fn run_pieces<R: PieceRunner<T>, T: Total + Drop>(
    alloc: Global,
    runner: &R,
    root: R::Task,
    limits: Limits,
    order: &[u32],
    desk: Desk<T>,
) -> Result<Run<R::Task, T>, AllocError>
    requires ready { IsReady (R.is_own runner.now) (R.place_of runner.now) (R.own runner.now)
        (R.whole runner.now) }
    requires root { R.is_own runner.now root }
    requires place { R.place_of runner.now root ≡ [] }
    requires most { T.most desk.share ≡ limits.ticks }
    requires new { (T.added desk.share ≡ 0) × (T.last desk.share ≡ 0) }
    ensures kept { IfOk result (λ r. T.kept r.desk.share ≡ T.kept desk.share) }
    ensures most { IfOk result (λ r. T.most r.desk.share ≡ limits.ticks) }
    ensures run { IfOk result (λ r. IsRunTo (R.is_own runner.now) (R.place_of runner.now)
        (R.own runner.now) root limits (T.added r.desk.share) (T.last r.desk.share)
        r.pieces.items) }
    ensures claims { IfOk result (λ r.
        AreClaims (R.place_of runner.now) 1 r.pieces.items r.claims.items) }
{
    let mut pieces = only_root(alloc, root)?;
    let mut claims = Vec::new(alloc);
    let mut desk = desk;
    let mut next = 0;
    while next < pieces.len() {
        let chosen = choose(order, next, pieces.len());
        pieces.swap(next, chosen);
        claim(runner, &mut claims, &pieces[next].task)?;
        let ran = run_next(alloc, runner, &mut pieces, next, limits, desk)?;
        let Next {
            desk: after,
            is_over,
        } = ran;
        desk = after;
        if is_over {
            return Ok(Run {
                pieces,
                claims,
                desk,
            });
        }
        next += 1;
    }
    Ok(Run {
        pieces,
        claims,
        desk,
    })
}

/// The piece of a task alone. It was not run yet.
fn only_root<T: Drop>(alloc: Global, root: T) -> Result<Vec<Piece<T>>, AllocError>
    ensures only { IfOk result (λ pieces. pieces.items ≡ waiting root ∷ []) }
{
    let mut pieces = Vec::new(alloc);
    pieces.push(Piece {
        task: root,
        outcome: None,
    })?;
    Ok(pieces)
}

/// The index of the piece that is run next, of those that wait from an index on: that with the
/// number which the order has there, or the first.
fn choose(order: &[u32], first: usize, count: usize) -> usize
    requires some { first < count }
    ensures waits { first ≤ result }
    ensures within { result < count }
{
    let Some(number) = order.get(first) else {
        return first;
    };
    let number = *number as usize;
    if number < count - first {
        first + number
    } else {
        first
    }
}

/// The first worker claims the piece of a task.
fn claim<R: Runner>(runner: &R, claims: &mut Vec<Claim>, task: &R::Task) -> Result<(), AllocError>
    ensures claimed { OnOk result (claims.new.items ≡ claims.old.items
        ++ record { worker = 0; place = R.place_of runner.now task.now } ∷ []) }
{
    let place = runner.place(task).copy()?;
    claims.push(Claim { worker: 0, place })?;
    Ok(())
}
