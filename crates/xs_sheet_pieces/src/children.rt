//! The children of a piece, put at their places.

ghost use Rattle.std.specs.Prelude.{◌≡◌, ◌++◌, ◌+◌, ◌≤◌, ℕ, IfOk, Ok, OnErr, OnOk};
ghost use Rattle.xs_block.specs.Chain.{most_blocks};
ghost use Rattle.xs_record.specs.Outcome.{part_blocks};
ghost use Rattle.xs_task_laws.specs.Placed.{placed_tasks};

use crate::placed::PlacedTask;
use std::alloc::{AllocError, Global};
use xs_block::pool::Pool;
use xs_body::task::Task;
use xs_core::place::Place;
use xs_record::outcome::{Outcome, free_parts};
use xs_record::segment::Segment;

/// What a piece did, after its tasks were appended to the children, each at its place below that of
/// the piece. Out of memory the children stay, and the blocks of what it did are free.
pub(crate) fn adopt<'a>(
    alloc: Global,
    outcome: Result<Outcome, AllocError>,
    place: &Place,
    tasks: Vec<Task<'a>>,
    children: &mut Vec<PlacedTask<'a>>,
    pool: &mut Pool<Segment>,
) -> Result<Outcome, AllocError>
    ensures same { IfOk result (λ o. outcome ≡ Ok o) }
    ensures placed { OnOk result (children.new.items
        ≡ children.old.items ++ placed_tasks place.now 0 tasks.entry.items) }
    ensures refused { OnErr result (children.new.items ≡ children.old.items) }
    ensures kept { OnOk result (pool.new ≡ pool.old) }
    ensures free { OnErr result ((n : ℕ) → n ≤ most_blocks →
        IfOk outcome (λ o. n ≤ part_blocks o.parts.items + pool.old) →
        OnErr outcome (n ≤ pool.old) → n ≤ pool.new) }
{
    let outcome = outcome?;
    match append_placed(alloc, place, tasks, children) {
        Ok(()) => Ok(outcome),
        Err(refused) => {
            free_parts(pool, outcome.parts);
            Err(refused)
        }
    }
}

/// Appends tasks, each at its place below a place.
fn append_placed<'a>(
    alloc: Global,
    place: &Place,
    tasks: Vec<Task<'a>>,
    children: &mut Vec<PlacedTask<'a>>,
) -> Result<(), AllocError>
    ensures placed { OnOk result (children.new.items
        ≡ children.old.items ++ placed_tasks place.now 0 tasks.entry.items) }
    ensures refused { OnErr result (children.new.items ≡ children.old.items) }
{
    let mut placed = put_at_places(alloc, place, tasks)?;
    children.append(&mut placed)
}

/// Tasks at their places below a place, numbered from 0 on.
fn put_at_places<'a>(
    alloc: Global,
    place: &Place,
    tasks: Vec<Task<'a>>,
) -> Result<Vec<PlacedTask<'a>>, AllocError>
    ensures placed { IfOk result (λ placed.
        placed.items ≡ placed_tasks place.now 0 tasks.entry.items) }
{
    let mut tasks = tasks;
    let mut placed = Vec::with_capacity(alloc, tasks.len())?;
    tasks.reverse();
    while let Some(task) = tasks.pop() {
        let place = place.child(placed.len() as u64)?;
        placed.push(PlacedTask { place, task })?;
    }
    Ok(placed)
}
