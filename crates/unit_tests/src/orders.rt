//! The pieces of a tree of seven in every order, under every limit, against the whole run.

ghost use Rattle.std.specs.Prelude.{◌≤◌, ◌^◌};

use crate::pieces::{agrees, at_once, limits_of, seven_pieces};
use crate::table::{RowTask, TableRunner, table_is_ready};
use std::alloc::{AllocError, Global};
use xs_assemble::assemble::assemble;
use xs_block::pool::Pool;
use xs_pieces::piece::Piece;
use xs_pieces::runner::Runner;
use xs_pool::sequential::run_in_order;
use xs_record::outcome::Outcome;
use xs_trace::item::Ended;

// So many ticks has the tree; so many orders are tried, some of them more than once.
const TICKS: u64 = 13;

const ORDERS: u32 = 144;

// The order with a number: which of the pieces that wait comes next, where the most that can wait
// are two, three, four, three and two.
fn order_of(number: u32) -> [u32; 6] {
    [
        0,
        number % 2,
        number / 2 % 3,
        number / 6 % 4,
        number / 24 % 3,
        number / 72 % 2,
    ]
}

// Which pieces are finished: a bit for each row.
fn finished(pieces: &[Piece<RowTask>]) -> u64 {
    let mut found = 0;
    for piece in pieces {
        if is_finished(&piece.outcome) {
            found |= 1 << (piece.task.row & 7);
        }
    }
    found
}

// Whether a piece was run, and did not end in the total.
fn is_finished(outcome: &Option<Outcome>) -> bool {
    match outcome {
        None => false,
        Some(outcome) => !matches!(outcome.ended, Ended::Over { .. }),
    }
}

// Which pieces are finished in an order, within so many ticks, where what they did, with the others
// in their place, is what the whole run does; none, where it is not.
fn tried(alloc: Global, runner: &TableRunner, ticks: u64, order: &[u32]) -> Result<u64, AllocError>
    requires few { ticks ≤ 2 ^ 40 }
{
    let whole = at_once(alloc, runner, ticks)?;
    let limits = limits_of(ticks);
    table_is_ready();
    let root = runner.root_task(alloc);
    let collected = run_in_order(alloc, runner, root, limits, order)?;
    let found = finished(&collected.pieces);
    let mut pool = Pool::new(alloc);
    let assembled = assemble(alloc, runner, collected, limits, &mut pool)?;
    Ok(if agrees(alloc, &assembled, &whole)? {
        found
    } else {
        0
    })
}

// How many sets of finished pieces come up in all orders within all limits; 0 where a run differs
// from the whole one.
fn sets_tried(alloc: Global) -> Result<usize, AllocError> {
    let runner = seven_pieces(alloc)?;
    let mut sets: Vec<u64> = Vec::new(alloc);
    for number in 0..ORDERS {
        let order = order_of(number);
        for ticks in 0..TICKS + 1 {
            let found = tried(alloc, &runner, ticks, &order)?;
            if found == 0 {
                return Ok(0);
            }
            if !sets.contains(&found) {
                sets.push(found)?;
            }
        }
    }
    Ok(sets.len())
}

// All 25 trees that have the root: of each other piece those above it.
#[test]
fn any_pieces_may_be_missing(rt: HostRuntime) -> Result<(), AllocError> {
    assert_eq!(rt; sets_tried(rt.alloc())?, 25);
    Ok(())
}
