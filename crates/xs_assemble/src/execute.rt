//! A run in pieces: they are run, and joined.

ghost use Rattle.std.specs.List.{Contains};
ghost use Rattle.std.specs.Prelude.{◌≡◌, ◌+◌, ◌*◌, ◌<◌, ◌≤◌, ◌^◌, [], ℕ, List};
ghost use Rattle.std.specs.Prelude.{IfOk, None, OnErr};
ghost use Rattle.xs_assemble.specs.Assembled.{IsAssembled};
ghost use Rattle.xs_assemble.specs.Claims.{claimed_places, claimed_ticks};
ghost use Rattle.xs_assemble.specs.Claims.{AreAll, AreOfTree, IsJoined, IsReached};
ghost use Rattle.xs_block.specs.Chain.{blocks_of};
ghost use Rattle.xs_pieces.specs.Ready.{IsReady};
ghost use Rattle.xs_trace.specs.Cut.{cut};

use crate::assemble::assemble;
use crate::assembled::Executed;
use std::alloc::AllocError;
use std::thread::Threads;
use xs_block::pool::Pool;
use xs_core::place::compare_places;
use xs_ledger::total::LedgerTotal;
use xs_outside::Gate;
use xs_pieces::piece::Collected;
use xs_pieces::runner::PieceRunner;
use xs_pool::crew::Crew;
use xs_pool::ear::Ear;
use xs_pool::pool::run_pool;
use xs_record::segment::Segment;

/// Runs a task in pieces by the workers of a crew, and joins what they did: all that the task does,
/// cut at the limits.
pub fn execute<X: Threads + Sync, R: PieceRunner<LedgerTotal> + Sync, G: Gate, H: Ear>(
    rt: &X,
    crew: &Crew<'_, R, G>,
    root: R::Task,
    ear: &mut H,
    pool: &mut Pool<Segment>,
) -> Result<Executed, AllocError>
where
    R::Task: Send,
    requires ready { IsReady (R.is_own crew.now.runner.now) (R.place_of crew.now.runner.now)
        (R.own crew.now.runner.now) (R.whole crew.now.runner.now) }
    requires root { R.is_own crew.now.runner.now root }
    requires place { R.place_of crew.now.runner.now root ≡ [] }
    requires count { (0 < crew.now.count) × (crew.now.count ≤ 64) }
    requires limit { crew.now.limits.ticks ≤ 2 ^ 40 }
    ensures cut { IfOk result (λ e.
        IsAssembled (cut (R.whole crew.now.runner.now root) crew.now.limits.ticks
        crew.now.limits.events) e.assembled) }
    ensures joined { IfOk result (IsJoined (R.is_own crew.now.runner.now)
        (R.place_of crew.now.runner.now) (R.own crew.now.runner.now) (R.whole crew.now.runner.now)
        root crew.now.limits crew.now.count) }
    ensures worked { IfOk result (λ e.
        e.worked ≤ 2 * crew.now.limits.ticks + 1024 * crew.now.count) }
    ensures only_above { IfOk result (λ e.
        0 < e.assembled.inline → crew.now.limits.ticks < e.worked) }
    ensures overspent { IfOk result (λ e. 0 < e.assembled.inline →
        crew.now.limits.ticks < claimed_ticks (R.own crew.now.runner.now) root crew.now.limits
        e.claims.items) }
    ensures few { IfOk result (λ e. e.assembled.inline_ticks ≤ crew.now.limits.ticks) }
    ensures sum { IfOk result (λ e. e.worked
        ≤ claimed_ticks (R.own crew.now.runner.now) root crew.now.limits e.claims.items
        + e.assembled.inline_ticks) }
    ensures claims { IfOk result (λ e.
        AreOfTree (R.own crew.now.runner.now) root crew.now.count e.claims.items) }
    ensures reached { IfOk result (λ e. (p : List ℕ) →
        IsReached (R.own crew.now.runner.now) root crew.now.limits p →
        (Contains (claimed_places e.claims.items) p → ⊥) → crew.now.limits.ticks < e.worked) }
    ensures missing { IfOk result (λ e. (p : List ℕ) →
        IsReached (R.own crew.now.runner.now) root crew.now.limits p →
        (Contains (claimed_places e.claims.items) p → ⊥) →
        crew.now.limits.ticks < claimed_ticks (R.own crew.now.runner.now) root crew.now.limits
        e.claims.items) }
    ensures taken { IfOk result (λ e. e.assembled.ticks ≤ e.worked) }
    ensures whole { IfOk result (λ e. e.assembled.end ≡ None →
        AreAll (R.own crew.now.runner.now) root e.claims.items
        × (e.assembled.inline ≡ 0) × (e.worked ≡ e.assembled.ticks)) }
    ensures blocks { IfOk result (λ e. pool.old ≤ blocks_of e.assembled.items + pool.new) }
    ensures free { OnErr result (pool.old ≤ pool.new) }
{
    let _most = pool.free_blocks();
    let ran = run_pool(rt, crew, root, ear)?;
    let Collected {
        pieces,
        mut claims,
        total,
    } = ran;
    claims.sort_by(|a, b| compare_places(&a.place, &b.place))?;
    let collected = Collected {
        pieces,
        claims: Vec::new(crew.alloc),
        total,
    };
    let assembled = assemble(crew.alloc, crew.runner, collected, crew.limits, pool)?;
    let worked = total + assembled.inline_ticks;
    Ok(Executed {
        assembled,
        claims,
        worked,
    })
}
