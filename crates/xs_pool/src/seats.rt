//! Workers are made.

ghost use Rattle.crossbeam_deque.specs.Handles.{stealer_deque, worker_deque};
ghost use Rattle.std.specs.List.{All};
ghost use Rattle.std.specs.Prelude.{◌≡◌, ◌<◌, ◌≤◌, ◌^◌, ℕ, IfOk, OnOk, length, map, reverse};
ghost use Rattle.xs_ledger.specs.Shares.{ledger_id, seats_of};
ghost use Rattle.xs_pool.specs.Owners.{IsOpen};
ghost use Rattle.xs_pool.specs.Starts.{AreNumbered, IsFresh, IsNew, IsRow};
ghost use Rattle.xs_pool.specs.Workers.{deque_of};
ghost use Rattle.atomic_table.specs.Seated.{TableId};

use crate::deques::{open_deques, rights_to, thieves_of};
use crate::desks::{Desks, open_desks};
use crate::log::Log;
use crate::member::Member;
use crate::rule::{Known, Owner, Right, Thief};
use std::alloc::{AllocError, Global};
use std::sync::Arc;
use xs_ledger::ledger::Ledger;
use xs_ledger::total::LedgerTotal;
use xs_pieces::piece::Desk;

/// Workers, the last one first, with their ledger and the other ends of their deques.
#[derive(Drop)]
pub(crate) struct Seated<T, K: Known<T>> {
    /// The ledger of all shares.
    pub(crate) ledger: Arc<Ledger>,
    /// The other ends of all deques, in order.
    pub(crate) thieves: Vec<Thief<T, K>>,
    /// The workers, the last one first.
    pub(crate) members: Vec<Member<T, K>>,
}

/// So many workers that have run nothing, whose total may come to a limit.
pub(crate) fn seat_all<T: Drop, K: Known<T>>(
    alloc: Global,
    limit: u64,
    count: u32,
) -> Result<Seated<T, K>, AllocError>
    requires count { (0 < count) × (count ≤ 64) }
    requires limit { limit ≤ 2 ^ 40 }
    ensures seats { IfOk result (λ s. seats_of s.ledger.value ≡ count) }
    ensures count { IfOk result (λ s. length s.members.items ≡ count) }
    ensures ends { IfOk result (λ s. length s.thieves.items ≡ count) }
    ensures deques { IfOk result (λ s.
        map deque_of (reverse s.members.items) ≡ map stealer_deque s.thieves.items) }
    ensures numbers { IfOk result (λ s. AreNumbered count s.members.items) }
    ensures new { IfOk result (λ s. All (IsNew (ledger_id s.ledger.value) limit count
        (map stealer_deque s.thieves.items)) s.members.items) }
{
    let Desks { ledger, desks } = open_desks(alloc, limit, count)?;
    let mut owners = open_deques::<T, K>(alloc, count as usize)?;
    let rows = rows_of::<T, K>(alloc, &mut owners, count as usize)?;
    let thieves = thieves_of::<T, K>(alloc, &owners)?;
    let members = members_of::<T, K>(alloc, count, owners, rows, desks)?;
    Ok(Seated {
        ledger,
        thieves,
        members,
    })
}

/// So many rights to each deque, to which nobody had one.
fn rows_of<T: Drop, K: Known<T>>(
    alloc: Global,
    owners: &mut Vec<Owner<T, K>>,
    count: usize,
) -> Result<Vec<Vec<Right<T>>>, AllocError>
    requires few { count ≤ 64 }
    requires open { All (IsOpen 0) owners.old.items }
    ensures open { OnOk result (All (IsOpen count) owners.new.items) }
    ensures deques { OnOk result (map worker_deque owners.new.items
        ≡ map worker_deque owners.old.items) }
    ensures rows { IfOk result (λ rs.
        All (λ r. IsRow (map worker_deque owners.old.items) r.items) rs.items) }
    ensures count { IfOk result (λ rs. length rs.items ≡ count) }
{
    let mut rows = Vec::new(alloc);
    for before in 0..count {
        let row = rights_to::<T, K>(alloc, owners, before)?;
        rows.push(row)?;
    }
    Ok(rows)
}

/// A worker at each deque, the last one first.
fn members_of<T: Drop, K: Known<T>>(
    alloc: Global,
    count: u32,
    mut owners: Vec<Owner<T, K>>,
    mut rows: Vec<Vec<Right<T>>>,
    mut desks: Vec<Desk<LedgerTotal>>,
) -> Result<Vec<Member<T, K>>, AllocError>
    requires owners { length owners.items ≡ count }
    requires rows { length rows.items ≡ count }
    requires desks { length desks.items ≡ count }
    requires open { All (IsOpen count) owners.items }
    requires rights { All (λ r. IsRow (map worker_deque owners.items) r.items) rows.items }
    ensures count { IfOk result (λ ms. length ms.items ≡ count) }
    ensures deques { IfOk result (λ ms.
        map deque_of (reverse ms.items) ≡ map worker_deque owners.items) }
    ensures numbers { IfOk result (λ ms. AreNumbered count ms.items) }
    ensures new { IfOk result (λ ms. (id : TableId) (limit : ℕ) →
        All (IsFresh id limit) desks.items →
        All (IsNew id limit count (map worker_deque owners.items)) ms.items) }
{
    let mut members = Vec::new(alloc);
    while let Some(deque) = owners.pop() {
        let Some(rights) = rows.pop() else {
            unreachable!()
        };
        let Some(desk) = desks.pop() else {
            unreachable!()
        };
        members.push(Member {
            number: owners.len() as u32,
            deque,
            rights,
            desk,
            log: Log::new(alloc),
            kept: Vec::new(alloc),
        })?;
    }
    Ok(members)
}
