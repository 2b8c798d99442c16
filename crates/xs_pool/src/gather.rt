//! What workers did is brought together.

ghost use Rattle.crossbeam_deque.specs.Handles.{worker_deque};
ghost use Rattle.std.specs.List.{All};
ghost use Rattle.std.specs.Prelude.{◌≡◌, ◌+◌, ◌<◌, ℕ, IfOk, OnOk, length, map, reverse};
ghost use Rattle.xs_core.specs.Good.{total};
ghost use Rattle.xs_pool.specs.Owners.{all_given, all_taken, parts_of};
ghost use Rattle.xs_pool.specs.Rights.{stolen_by, AreRights};
ghost use Rattle.xs_pool.specs.Rule.{all_parts};
ghost use Rattle.xs_pool.specs.Together.{all_of};
ghost use Rattle.xs_pool.specs.Workers.{deque_of, given_in, taken_in};

use crate::deques::{drain_all, take_back};
use crate::log::Log;
use crate::member::Member;
use crate::rule::{Known, Owner, Right};
use std::alloc::{AllocError, Global};
use xs_ledger::total::LedgerTotal;
use xs_pieces::piece::Desk;

/// What workers had, by its kind, in their order.
#[derive(Drop)]
struct Parted<T, K: Known<T>> {
    owners: Vec<Owner<T, K>>,
    rows: Vec<Vec<Right<T>>>,
    desks: Vec<Desk<LedgerTotal>>,
    logs: Vec<Log<T>>,
    kept: Vec<T>,
}

/// What workers did together, and what they left.
#[derive(Drop)]
pub(crate) struct Gathered<T> {
    /// Their desks, in their order.
    pub(crate) desks: Vec<Desk<LedgerTotal>>,
    /// What each of them ran, in their order.
    pub(crate) logs: Vec<Log<T>>,
    /// What waits in their deques, or was kept.
    pub(crate) left: Vec<T>,
}

/// What workers did together, of whom the last one comes first, and what they left.
pub(crate) fn gather<T: Drop, K: Known<T>>(
    alloc: Global,
    members: Vec<Member<T, K>>,
) -> Result<Gathered<T>, AllocError>
    requires few { length members.items < 65 }
    requires parts { All (λ m. parts_of m.deque + length members.items ≡ all_parts)
        (reverse members.items) }
    requires rights { All (λ m. AreRights (map deque_of (reverse members.items)) m.rights.items
        × (length m.rights.items ≡ length members.items)) (reverse members.items) }
    requires kept { All (λ m. All K.waits m.kept.items) (reverse members.items) }
    ensures desks { IfOk result (λ g. g.desks.items ≡ map (λ m. m.desk) (reverse members.items)) }
    ensures logs { IfOk result (λ g. g.logs.items ≡ map (λ m. m.log) (reverse members.items)) }
    ensures waits { IfOk result (λ g. All K.waits g.left.items) }
    ensures left { IfOk result (λ g. (h : T → ℕ) → total (given_in h) (reverse members.items)
        ≡ total (taken_in h) (reverse members.items) + total h g.left.items) }
{
    let Parted {
        owners,
        rows,
        desks,
        logs,
        mut kept,
    } = part(alloc, members)?;
    settle::<T, K>(owners, rows, &mut kept)?;
    Ok(Gathered {
        desks,
        logs,
        left: kept,
    })
}

/// Workers, taken apart.
fn part<T: Drop, K: Known<T>>(
    alloc: Global,
    mut members: Vec<Member<T, K>>,
) -> Result<Parted<T, K>, AllocError>
    ensures owners { IfOk result (λ p.
        p.owners.items ≡ map (λ m. m.deque) (reverse members.items)) }
    ensures rows { IfOk result (λ p. p.rows.items ≡ map (λ m. m.rights) (reverse members.items)) }
    ensures desks { IfOk result (λ p. p.desks.items ≡ map (λ m. m.desk) (reverse members.items)) }
    ensures logs { IfOk result (λ p. p.logs.items ≡ map (λ m. m.log) (reverse members.items)) }
    ensures kept { IfOk result (λ p.
        p.kept.items ≡ all_of (λ m. m.kept.items) (reverse members.items)) }
{
    let mut owners = Vec::new(alloc);
    let mut rows = Vec::new(alloc);
    let mut desks = Vec::new(alloc);
    let mut logs = Vec::new(alloc);
    let mut all_kept = Vec::new(alloc);
    while let Some(member) = members.pop() {
        let Member {
            deque,
            rights,
            desk,
            log,
            mut kept,
            ..
        } = member;
        owners.push(deque)?;
        rows.push(rights)?;
        desks.push(desk)?;
        logs.push(log)?;
        all_kept.append(&mut kept)?;
    }
    Ok(Parted {
        owners,
        rows,
        desks,
        logs,
        kept: all_kept,
    })
}

/// All rights come back, row by row, and what is left in all deques is taken.
fn settle<T: Drop, K: Known<T>>(
    mut owners: Vec<Owner<T, K>>,
    mut rows: Vec<Vec<Right<T>>>,
    left: &mut Vec<T>,
) -> Result<(), AllocError>
    requires few { length rows.items < 65 }
    requires parts { All (λ o. parts_of o + length rows.items ≡ all_parts) owners.items }
    requires rows { All (λ r. AreRights (map worker_deque owners.items) r.items
        × (length r.items ≡ length owners.items)) rows.items }
    requires left { All K.waits left.old.items }
    ensures left { All K.waits left.new.items }
    ensures all { OnOk result ((h : T → ℕ) → all_given h owners.items + total h left.old.items
        ≡ (all_taken h owners.items + total (λ r. stolen_by h r.items) rows.items)
        + total h left.new.items) }
{
    while let Some(row) = rows.pop() {
        take_back::<T, K>(&mut owners, row);
    }
    drain_all::<T, K>(owners, left)?;
    Ok(())
}
