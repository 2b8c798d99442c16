//! Runs by many workers: what they give, a worker that waits until another one has taken the rest,
//! and the most that all do.

ghost use Rattle.std.specs.Prelude.{◌<◌, ◌≤◌};

use crate::pieces::{agrees, at, at_once, in_pieces, limits_of, push_log, run_by, seven_pieces};
use crate::table::{Entry, Row, TableRunner};
use once_cell::race::OnceBool;
use std::alloc::{AllocError, Global};
use std::thread::{Threads, yield_now};
use xs_core::place::Claim;
use xs_outside::Gate;
use xs_pool::crew::Crew;
use xs_trace::fault::Fault;

// Whether so many workers give what one run gives within so many ticks.
fn is_alike<X: Threads + Sync>(
    rt: &X,
    alloc: Global,
    runner: &TableRunner,
    ticks: u32,
    count: u32,
) -> Result<bool, AllocError>
    requires count { (0 < count) × (count ≤ 64) }
{
    let run = in_pieces(rt, alloc, runner, u64::from(ticks), count)?;
    let whole = at_once(alloc, runner, u64::from(ticks))?;
    agrees(alloc, &run.assembled, &whole)
}

// Whether so many workers do within each limit below fifteen ticks.
fn are_alike<X: Threads + Sync>(
    rt: &X,
    alloc: Global,
    runner: &TableRunner,
    count: u32,
) -> Result<bool, AllocError>
    requires count { (0 < count) × (count ≤ 64) }
{
    for ticks in 0..15_u32 {
        if !is_alike(rt, alloc, runner, ticks, count)? {
            return Ok(false);
        }
    }
    Ok(true)
}

#[test]
fn many_workers_give_what_one_run_gives(rt: HostRuntime) -> Result<(), AllocError> {
    let runner = seven_pieces(rt.alloc())?;
    let two = are_alike(&rt, rt.alloc(), &runner, 2);
    let most = are_alike(&rt, rt.alloc(), &runner, 64);
    drop(runner);
    assert!(rt; two? && most?);
    Ok(())
}

/// How often a worker looks whether another one has come.
const TURNS: u32 = 50_000_000;

/// A gate for two workers. The first waits at its second claim until the second has come to its
/// third; that one waits at its first claim until the first has come to its second.
#[derive(Drop)]
struct Meeting {
    first_came: OnceBool,
    second_came: OnceBool,
    is_late: OnceBool,
}

impl Meeting {
    // A gate to which nobody has come.
    fn new() -> Meeting {
        Meeting {
            first_came: OnceBool::new(),
            second_came: OnceBool::new(),
            is_late: OnceBool::new(),
        }
    }

    // Waits until a worker has come, but not for ever.
    fn wait_for(&self, came: &OnceBool) {
        for _turn in 0..TURNS {
            if came.get().is_some() {
                return;
            }
            yield_now();
        }
        set(&self.is_late);
    }

    // Whether both workers came, and neither waited in vain.
    fn is_met(&self) -> bool {
        self.first_came.get().is_some()
            && self.second_came.get().is_some()
            && self.is_late.get().is_none()
    }
}

// Sets a flag.
fn set(flag: &OnceBool) {
    let _is_first = flag.set(true).is_ok();
}

impl Gate for Meeting {
    // Where a worker is to wait, it does.
    fn pass(&self, worker: u32, taken: u64) {
        match (worker, taken) {
            (0, 2) => {
                set(&self.first_came);
                self.wait_for(&self.second_came);
            }
            (1, 1) => self.wait_for(&self.first_came),
            (1, 3) => set(&self.second_came),
            _ => {}
        }
    }
}

// A root with four children.
fn five_pieces(alloc: Global) -> Result<TableRunner, AllocError> {
    let mut rows = Vec::new(alloc);
    push_log(alloc, &mut rows, 1, &[0, 0, 0, 0])?;
    push_log(alloc, &mut rows, 2, &[])?;
    Ok(TableRunner { rows })
}

// Whether these workers made the claims.
fn are_of(claims: &[Claim], workers: &[u32]) -> bool {
    claims.len() == workers.len()
        && claims
            .iter()
            .zip(workers)
            .all(|(claim, worker)| claim.worker == *worker)
}

// Whether two workers give what one run gives, and the second claims all children but the first.
fn is_shared<X: Threads + Sync, G: Gate>(
    rt: &X,
    alloc: Global,
    runner: &TableRunner,
    gate: &G,
) -> Result<bool, AllocError> {
    let crew = Crew {
        alloc,
        runner,
        gate,
        limits: limits_of(100),
        count: 2,
    };
    let run = run_by(rt, &crew)?;
    let whole = at_once(alloc, runner, 100)?;
    Ok(agrees(alloc, &run.assembled, &whole)? && are_of(&run.claims, &[0, 0, 1, 1, 1]))
}

// The first worker takes the first child, and the second one, from the last on, the others.
#[test]
fn a_worker_waits_until_another_has_taken_the_rest(rt: HostRuntime) -> Result<(), AllocError> {
    let runner = five_pieces(rt.alloc())?;
    let meeting = Meeting::new();
    let is_shared = is_shared(&rt, rt.alloc(), &runner, &meeting);
    drop(runner);
    assert!(rt; is_shared? && meeting.is_met());
    Ok(())
}

// A row of a tick and so many more.
fn long_row(alloc: Global, ticks: u32) -> Result<Row, AllocError> {
    let mut entries = Vec::new(alloc);
    for _tick in 0..ticks {
        entries.push(Entry::Tick(at(3)))?;
    }
    let site = at(3);
    Ok(Row { site, entries })
}

// A root with a hundred children: the first stops in a fault, and each other one has more ticks
// than there may be.
fn long_pieces(alloc: Global) -> Result<TableRunner, AllocError> {
    let mut entries = vec![in alloc; Entry::Child(0)]?;
    for _child in 1..100_u32 {
        entries.push(Entry::Child(1))?;
    }
    let fault = vec![in alloc; Entry::Stop(Fault::Fraction, at(2))]?;
    let mut rows = Vec::new(alloc);
    let site = at(1);
    rows.push(Row { site, entries })?;
    let site = at(2);
    rows.push(Row {
        site,
        entries: fault,
    })?;
    rows.push(long_row(alloc, 2000)?)?;
    Ok(TableRunner { rows })
}

// Whether so many workers give what one run gives within a thousand ticks, and take no more than so
// many in all.
fn is_within<X: Threads + Sync>(
    rt: &X,
    alloc: Global,
    runner: &TableRunner,
    count: u32,
    most: u64,
) -> Result<bool, AllocError>
    requires count { (0 < count) × (count ≤ 64) }
{
    let run = in_pieces(rt, alloc, runner, 1000, count)?;
    let whole = at_once(alloc, runner, 1000)?;
    Ok(agrees(alloc, &run.assembled, &whole)? && run.worked <= most)
}

// A fault that stands first is reported, though what comes after it is above the limit: by each
// worker at most 1,024 ticks, and as many as the limit are taken twice.
#[test]
fn workers_take_few_ticks_above_the_limit(rt: HostRuntime) -> Result<(), AllocError> {
    let runner = long_pieces(rt.alloc())?;
    let one = is_within(&rt, rt.alloc(), &runner, 1, 3024);
    let two = is_within(&rt, rt.alloc(), &runner, 2, 4048);
    let most = is_within(&rt, rt.alloc(), &runner, 64, 67_536);
    drop(runner);
    assert!(rt; one? && two? && most?);
    Ok(())
}
