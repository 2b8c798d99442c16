//! The globals of a stylesheet are settled, one after another (XSLT 1.0, 11.4).

ghost use Rattle.std.specs.Prelude.{◌≡◌, ◌<◌, ◌≤◌, ◌∷◌, ◌++◌, ℕ, ◌+◌, ◌*◌, [], length, reverse};
ghost use Rattle.std.specs.Prelude.{slice_get, slice_set, None, Some, true};
ghost use Rattle.std.specs.Prelude.{IfOk, OnOk, IsSome};
ghost use Rattle.std.specs.List.{All};
ghost use Rattle.xs_body.specs.Inside.{IsAttemptIn};
ghost use Rattle.xs_body.specs.Results.{IsAttempt};
ghost use Rattle.xs_eval_spec.specs.Conditions.{IsInIf};
ghost use Rattle.xs_globals.specs.Results.{settled_by, settled_of};
ghost use Rattle.xs_globals.specs.steps.Settling.{Continues, GoesOn, IsGoing, IsFlagged, IsTurn};
ghost use Rattle.xs_globals.specs.steps.Settling.{IsUnderWay, left_over, table_of};
ghost use Rattle.xs_body_spec.specs.Globals.{Table as InTable};
ghost use Rattle.xs_body_spec.specs.Globals.{AllSettle, Settles, SettlesAll, attempt_cut};
ghost use Rattle.xs_body_spec.specs.Globals.{attempt_value, with_globals};

use crate::given::{in_order, none_begun, values_given};
use crate::settled::{Settled, Table, Turn};
use std::alloc::{AllocError, Global};
use xs_body::attempts::Attempt;
use xs_body::runner::SheetRunner;
use xs_body::world::World;
use xs_body_spec::finder::Finder;
use xs_text::TextBuf;
use xs_trace::item::Spot;
use xs_value::value::Value;

/// Settles the globals of a stylesheet over a world, by modules and lines, within a number of
/// ticks. Its parameters may be given texts from outside. The values that the world has of globals
/// are not used.
pub fn settle<K: Finder>(
    alloc: Global,
    world: &World<'_, K>,
    given: &[(TextBuf, TextBuf)],
    budget: u64,
) -> Result<Settled, AllocError>
    requires whole { world.now.grain ≡ None }
    ensures settles { IfOk result (λ z.
        SettlesAll world.now given.now budget (settled_of z)) }
    ensures inside { IfOk result (λ z. All (IsInIf world.now.tree) z.values.items) }
    ensures whole { IfOk result (λ z. z.end ≡ None → All IsSome z.values.items) }
    ensures count { IfOk result (λ z.
        length z.values.items ≡ length world.now.sheet.globals) }
    ensures within { IfOk result (λ z. z.ticks ≤ budget) }
    ensures few { IfOk result (λ z. z.thrown ≤ length world.now.sheet.globals) }
{
    let globals = world.sheet.globals.as_slice();
    let order = in_order(alloc, globals)?;
    let values = values_given(alloc, globals, given)?;
    let begun = none_begun(alloc, globals)?;
    let mut table = Table::with(alloc, values, begun);
    let end = settle_in_turn(alloc, world, budget, &order, &mut table)?;
    Ok(table.ended(end))
}

/// Settles some globals in turn, except those that have values.
fn settle_in_turn<K: Finder>(
    alloc: Global,
    world: &World<'_, K>,
    budget: u64,
    order: &[u32],
    table: &mut Table,
) -> Result<Option<Spot>, AllocError>
    requires whole { world.now.grain ≡ None }
    requires going { IsGoing world.now budget table.old.begun.items (table_of table.old) }
    requires flagged { IsFlagged table.old.begun.items [] table.old.values.items }
    ensures settles { IfOk result (λ end. AllSettle world.now budget order.now
        (table_of table.old) (settled_by end (table_of table.new))) }
    ensures going { OnOk result
        (IsGoing world.now budget table.new.begun.items (table_of table.new)) }
{
    let mut left = order;
    while let Some((global, others)) = left.split_first() {
        if let Some(spot) = settle_next(alloc, world, budget, *global, table)? {
            return Ok(Some(spot));
        }
        left = others;
    }
    Ok(None)
}

/// The next global in turn, unless it has a value.
fn settle_next<K: Finder>(
    alloc: Global,
    world: &World<'_, K>,
    budget: u64,
    global: u32,
    table: &mut Table,
) -> Result<Option<Spot>, AllocError>
    requires whole { world.now.grain ≡ None }
    requires going { IsGoing world.now budget table.old.begun.items (table_of table.old) }
    requires flagged { IsFlagged table.old.begun.items [] table.old.values.items }
    ensures next { IfOk result (Continues world.now budget global
        (table_of table.old) (table_of table.new)) }
    ensures going { OnOk result
        (IsGoing world.now budget table.new.begun.items (table_of table.new)) }
    ensures flagged { IfOk result (λ end. end ≡ None →
        IsFlagged table.new.begun.items [] table.new.values.items) }
{
    if !table.lacks(global) {
        return Ok(None);
    }
    settle_one(alloc, world, budget, global, table)
}

/// Settles a global, and before it those that it needs.
fn settle_one<K: Finder>(
    alloc: Global,
    world: &World<'_, K>,
    budget: u64,
    global: u32,
    table: &mut Table,
) -> Result<Option<Spot>, AllocError>
    requires whole { world.now.grain ≡ None }
    requires lacks { slice_get table.old.values.items global ≡ Some None }
    requires going { IsGoing world.now budget table.old.begun.items (table_of table.old) }
    requires flagged { IsFlagged table.old.begun.items [] table.old.values.items }
    ensures settles { IfOk result (λ end. Settles world.now budget [] global
        (table_of table.old) (settled_by end (table_of table.new))) }
    ensures going { OnOk result
        (IsGoing world.now budget table.new.begun.items (table_of table.new)) }
    ensures flagged { IfOk result (λ end. end ≡ None →
        IsFlagged table.new.begun.items [] table.new.values.items) }
{
    table.begun[global as usize] = true;
    let mut waiting = Vec::from_slice(alloc, &[global])?;
    while let Some(top) = waiting.pop() {
        if let Some(spot) = take_turn(alloc, world, budget, top, &mut waiting, table)? {
            return Ok(Some(spot));
        }
    }
    Ok(None)
}

/// An attempt at the innermost of the globals under attempt, and what it leaves to be done.
fn take_turn<K: Finder>(
    alloc: Global,
    world: &World<'_, K>,
    budget: u64,
    top: u32,
    waiting: &mut Vec<u32>,
    table: &mut Table,
) -> Result<Option<Spot>, AllocError>
    requires whole { world.now.grain ≡ None }
    requires going { IsGoing world.now budget table.old.begun.items (table_of table.old) }
    ensures turn { IfOk result (λ end. (global : ℕ) → (first : InTable) →
        IsUnderWay world.now budget global first table.old.begun.items
        (reverse (waiting.old.items ++ top ∷ [])) (table_of table.old) →
        GoesOn world.now budget global first table.new.begun.items waiting.new.items
        (table_of table.new)
        (2 * left_over table.old.begun.items + length (waiting.old.items ++ top ∷ [])) end) }
{
    match try_global(alloc, world, budget, top, table)? {
        Turn::Done => Ok(None),
        Turn::Ends(spot) => Ok(Some(spot)),
        Turn::Needs(other) => {
            descend(&mut table.begun, waiting, top, other)?;
            Ok(None)
        }
    }
}

/// Another global is to be settled before one.
fn descend(
    begun: &mut Vec<bool>,
    waiting: &mut Vec<u32>,
    top: u32,
    other: u32,
) -> Result<(), AllocError>
    requires there { other < length begun.old.items }
    ensures begun { OnOk result (begun.new.items ≡ slice_set begun.old.items other true) }
    ensures waiting { OnOk result
        (waiting.new.items ≡ (waiting.old.items ++ top ∷ []) ++ other ∷ []) }
{
    begun[other as usize] = true;
    waiting.push(top)?;
    waiting.push(other)?;
    Ok(())
}

/// An attempt at a global, of which one was begun and which has no value.
fn try_global<K: Finder>(
    alloc: Global,
    world: &World<'_, K>,
    budget: u64,
    global: u32,
    table: &mut Table,
) -> Result<Turn, AllocError>
    requires whole { world.now.grain ≡ None }
    requires values { All (IsInIf world.now.tree) table.old.values.items }
    ensures turn { IfOk result (IsTurn world.now budget table.old.begun.items global
        (table_of table.old) (table_of table.new)) }
    ensures values { OnOk result (All (IsInIf world.now.tree) table.new.values.items) }
    ensures begun { OnOk result (table.new.begun.items ≡ table.old.begun.items) }
{
    let left = budget.saturating_sub(table.ticks);
    let attempt = attempt_over(alloc, world, &table.values, global, left)?;
    match attempt {
        Attempt::Done { value, says, ticks } => {
            table.add(says, ticks)?;
            table.fill(global, value);
            Ok(Turn::Done)
        }
        Attempt::Stopped { says, ticks, spot } => {
            table.add(says, ticks)?;
            Ok(Turn::Ends(spot))
        }
        Attempt::Needs {
            global: other,
            site,
            says,
            ticks,
        } => table.need(other, site, says, ticks),
    }
}

/// An attempt at a global over some values.
fn attempt_over<K: Finder>(
    alloc: Global,
    world: &World<'_, K>,
    values: &[Option<Value>],
    global: u32,
    limit: u64,
) -> Result<Attempt, AllocError>
    requires whole { world.now.grain ≡ None }
    requires values { All (IsInIf world.now.tree) values.now }
    ensures attempt { IfOk result (IsAttempt
        (attempt_cut (with_globals world.now values.now) global limit)
        (attempt_value (with_globals world.now values.now)
        (slice_get world.now.sheet.globals global))) }
    ensures inside { IfOk result (IsAttemptIn world.now.tree) }
{
    let runner = SheetRunner::new(
        world.sheet,
        world.index,
        world.tree,
        world.finder,
        values,
        None,
    );
    runner.attempt(alloc, global, limit)
}
