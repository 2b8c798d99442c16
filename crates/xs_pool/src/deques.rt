//! The deques of all workers: they are made, and at the end all rights come back, and what is left
//! is taken.

ghost use Rattle.crossbeam_deque.specs.Handles.{stealer_deque, worker_deque};
ghost use Rattle.std.specs.List.{All};
ghost use Rattle.std.specs.Prelude.{◌≡◌, ℕ, ◌+◌, ◌<◌, ◌≤◌, IfOk, OnOk, length, map};
ghost use Rattle.xs_core.specs.Good.{total};
ghost use Rattle.xs_pool.specs.Owners.{all_given, all_taken, parts_of, IsOpen};
ghost use Rattle.xs_pool.specs.Rights.{stolen_by, AreRights};
ghost use Rattle.xs_pool.specs.Rule.{all_parts};

use crate::moves::drain;
use crate::rule::{Known, Owner, Parts, Right, Thief};
use std::alloc::{AllocError, Global};

/// How many tasks a new deque has room for.
const ROOM: usize = 64;

/// So many deques, to which nobody has a right yet. Each is last in, first out for its owner.
pub(crate) fn open_deques<T: Drop, K: Known<T>>(
    alloc: Global,
    count: usize,
) -> Result<Vec<Owner<T, K>>, AllocError>
    ensures count { IfOk result (λ os. length os.items ≡ count) }
    ensures open { IfOk result (λ os. All (IsOpen 0) os.items) }
{
    let mut owners = Vec::new(alloc);
    for _deque in 0..count {
        owners.push(Owner::lifo_as(alloc, ROOM)?)?;
    }
    Ok(owners)
}

/// The other ends of deques, in their order.
pub(crate) fn thieves_of<T: Drop, K: Known<T>>(
    alloc: Global,
    owners: &[Owner<T, K>],
) -> Result<Vec<Thief<T, K>>, AllocError>
    ensures deques { IfOk result (λ ts.
        map stealer_deque ts.items ≡ map worker_deque owners.now) }
{
    let mut thieves = Vec::new(alloc);
    for owner in owners {
        thieves.push(owner.stealer()?)?;
    }
    Ok(thieves)
}

/// A right to each deque, in their order, where so many rights were given before.
pub(crate) fn rights_to<T: Drop, K: Known<T>>(
    alloc: Global,
    owners: &mut Vec<Owner<T, K>>,
    before: usize,
) -> Result<Vec<Right<T>>, AllocError>
    requires few { before < 64 }
    requires open { All (IsOpen before) owners.old.items }
    ensures open { OnOk result (All (IsOpen (before + 1)) owners.new.items) }
    ensures deques { OnOk result (map worker_deque owners.new.items
        ≡ map worker_deque owners.old.items) }
    ensures rights { IfOk result (λ rs.
        AreRights (map worker_deque owners.old.items) rs.items) }
    ensures count { IfOk result (λ rs. length rs.items ≡ length owners.old.items) }
    ensures unused { IfOk result (λ rs. (h : T → ℕ) → stolen_by h rs.items ≡ 0) }
{
    let mut rights = Vec::new(alloc);
    for k in 0..owners.len() {
        let right = owners[k].another::<Parts>();
        rights.push(right)?;
    }
    Ok(rights)
}

/// A right to each deque comes back.
pub(crate) fn take_back<T: Drop, K: Known<T>>(
    owners: &mut Vec<Owner<T, K>>,
    mut rights: Vec<Right<T>>,
)
    requires rights { AreRights (map worker_deque owners.old.items) rights.items }
    requires count { length rights.items ≡ length owners.old.items }
    requires parts { All (λ o. 0 < parts_of o) owners.old.items }
    ensures deques { map worker_deque owners.new.items ≡ map worker_deque owners.old.items }
    ensures parts { (p : ℕ) → All (λ o. parts_of o ≡ p) owners.old.items →
        All (λ o. parts_of o ≡ p + 1) owners.new.items }
    ensures given { (h : T → ℕ) → all_given h owners.new.items ≡ all_given h owners.old.items }
    ensures taken { (h : T → ℕ) → all_taken h owners.new.items
        ≡ all_taken h owners.old.items + stolen_by h rights.items }
{
    while let Some(right) = rights.pop() {
        let k = rights.len();
        owners[k].absorb::<Parts>(right);
    }
}

/// Takes what is left in all deques.
pub(crate) fn drain_all<T: Drop, K: Known<T>>(
    mut owners: Vec<Owner<T, K>>,
    left: &mut Vec<T>,
) -> Result<(), AllocError>
    requires parts { All (λ o. parts_of o ≡ all_parts) owners.items }
    requires left { All K.waits left.old.items }
    ensures left { All K.waits left.new.items }
    ensures all { OnOk result ((h : T → ℕ) → all_given h owners.items + total h left.old.items
        ≡ all_taken h owners.items + total h left.new.items) }
{
    while let Some(owner) = owners.pop() {
        let mut owner = owner;
        drain::<T, K>(&mut owner, left)?;
    }
    Ok(())
}
