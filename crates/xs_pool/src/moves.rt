//! What a worker does with its deque, and with those of others.
//!
//! `idle` says how many workers have no task, neither at hand nor in their deque, and are not about
//! to look for one, or have stopped. Where these are all, nothing can come any more, and who sees
//! this stops. No clause speaks of it: a worker that stops too early costs time alone.

ghost use Rattle.crossbeam_deque.specs.Handles.{stealer_deque, SameWorker};
ghost use Rattle.std.specs.List.{All};
ghost use Rattle.std.specs.Option.{option_to_list};
ghost use Rattle.std.specs.Prelude.{◌≡◌, ℕ, ◌+◌, ◌<◌, ◌≤◌, ◌∷◌, [], IfSome, OnOk, length, map};
ghost use Rattle.std.specs.Prelude.{reverse};
ghost use Rattle.xs_core.specs.Good.{total};
ghost use Rattle.xs_pool.specs.Owners.{given_of, parts_of, taken_of, HasGiven};
ghost use Rattle.xs_pool.specs.Rights.{stolen_by, AreRights};
ghost use Rattle.xs_pool.specs.Rule.{all_parts};

use crate::rule::{Drains, Gives, Known, Owner, Right, Takes, Thief};
use crossbeam_deque::Steal;
use std::alloc::AllocError;
use std::hint::spin_loop;
use std::sync::atomic::{AtomicU64, Ordering};
use std::thread::yield_now;

/// After so many sweeps that found nothing a worker stops.
const SWEEPS: u32 = 10_000;

/// The most that a worker spins after a sweep that found nothing.
const MOST_SPINS: u32 = 100;

/// The last task: of those that were kept, or else of its deque; or the first of another deque.
pub(crate) fn find<T, K>(
    deque: &mut Owner<T, K>,
    kept: &mut Vec<T>,
    thieves: &[Thief<T, K>],
    rights: &mut Vec<Right<T>>,
    own: usize,
    idle: &AtomicU64,
) -> Option<T>
where
    T: Drop,
    K: Known<T>,
    requires parts { 0 < parts_of deque.old }
    requires kept { All K.waits kept.old.items }
    requires rights { AreRights (map stealer_deque thieves.now) rights.old.items }
    requires count { length rights.old.items ≤ length thieves.now }
    ensures same { SameWorker deque.old deque.new }
    ensures parts { parts_of deque.new ≡ parts_of deque.old }
    ensures given { given_of deque.new ≡ given_of deque.old }
    ensures kept { All K.waits kept.new.items }
    ensures rights { AreRights (map stealer_deque thieves.now) rights.new.items }
    ensures count { length rights.new.items ≡ length rights.old.items }
    ensures waits { IfSome result K.waits }
    ensures taken { (h : T → ℕ) →
        (total h (taken_of deque.new) + stolen_by h rights.new.items) + total h kept.old.items
        ≡ (total h (taken_of deque.old) + stolen_by h rights.old.items)
        + (total h kept.new.items + total h (option_to_list result)) }
{
    if let Some(task) = kept.pop() {
        return Some(task);
    }
    if let Some(task) = deque.pop_as::<Takes<K>>() {
        return Some(task);
    }
    steal::<T, K>(thieves, rights, own, idle)
}

/// A task of another deque, unless none was there for a while, or all workers are idle.
fn steal<T, K: Known<T>>(
    thieves: &[Thief<T, K>],
    rights: &mut Vec<Right<T>>,
    own: usize,
    idle: &AtomicU64,
) -> Option<T>
    requires rights { AreRights (map stealer_deque thieves.now) rights.old.items }
    requires count { length rights.old.items ≤ length thieves.now }
    ensures rights { AreRights (map stealer_deque thieves.now) rights.new.items }
    ensures count { length rights.new.items ≡ length rights.old.items }
    ensures waits { IfSome result K.waits }
    ensures taken { (h : T → ℕ) → stolen_by h rights.new.items
        ≡ stolen_by h rights.old.items + total h (option_to_list result) }
{
    if rights.len() < 2 {
        return None;
    }
    for sweep_count in 0..SWEEPS {
        if let Some(task) = sweep::<T, K>(thieves, rights, own) {
            return Some(task);
        }
        begin_rest(idle);
        pause(sweep_count);
        if are_idle(idle, thieves.len()) {
            return None;
        }
        end_rest(idle);
    }
    begin_rest(idle);
    None
}

/// One worker more is idle.
pub(crate) fn begin_rest(idle: &AtomicU64) {
    idle.fetch_add(1, Ordering::SeqCst);
}

/// One worker less is idle.
pub(crate) fn end_rest(idle: &AtomicU64) {
    idle.fetch_sub(1, Ordering::SeqCst);
}

/// Whether so many workers are idle.
fn are_idle(idle: &AtomicU64, count: usize) -> bool {
    idle.load(Ordering::SeqCst) >= count as u64
}

/// A task of another deque, each of which is tried once.
fn sweep<T, K: Known<T>>(
    thieves: &[Thief<T, K>],
    rights: &mut Vec<Right<T>>,
    own: usize,
) -> Option<T>
    requires rights { AreRights (map stealer_deque thieves.now) rights.old.items }
    requires count { length rights.old.items ≤ length thieves.now }
    ensures rights { AreRights (map stealer_deque thieves.now) rights.new.items }
    ensures count { length rights.new.items ≡ length rights.old.items }
    ensures waits { IfSome result K.waits }
    ensures taken { (h : T → ℕ) → stolen_by h rights.new.items
        ≡ stolen_by h rights.old.items + total h (option_to_list result) }
{
    for k in 0..rights.len() {
        if k == own {
            continue;
        }
        match thieves[k].steal_as::<Takes<K>>(&mut rights[k]) {
            Steal::Success(task) => return Some(task),
            Steal::Empty | Steal::Retry => {}
        }
    }
    None
}

/// Lets time pass after a sweep that found nothing, more of it after more of them.
fn pause(sweep_count: u32) {
    for _spin in 0..sweep_count.min(MOST_SPINS) {
        spin_loop();
    }
    yield_now();
}

/// Gives tasks from the last to the first, so that the first is taken next. Where the deque
/// refuses one, that and the others are kept.
pub(crate) fn give<T: Drop, K: Known<T>>(
    deque: &mut Owner<T, K>,
    kept: &mut Vec<T>,
    mut tasks: Vec<T>,
) -> Result<(), AllocError>
    requires parts { 0 < parts_of deque.old }
    requires kept { All K.waits kept.old.items }
    requires tasks { All K.waits tasks.items }
    ensures same { SameWorker deque.old deque.new }
    ensures parts { parts_of deque.new ≡ parts_of deque.old }
    ensures taken { taken_of deque.new ≡ taken_of deque.old }
    ensures kept { All K.waits kept.new.items }
    ensures given { OnOk result ((h : T → ℕ) →
        total h (given_of deque.new) + total h kept.new.items
        ≡ total h (given_of deque.old) + (total h kept.old.items + total h tasks.items)) }
    ensures ordered { OnOk result (HasGiven (reverse tasks.items) (given_of deque.old)
        (given_of deque.new) kept.old.items kept.new.items) }
{
    while let Some(task) = tasks.pop() {
        give_one::<T, K>(deque, kept, task)?;
    }
    Ok(())
}

/// Gives a task, or keeps it: where the deque refuses it, and where others are kept.
fn give_one<T: Drop, K: Known<T>>(
    deque: &mut Owner<T, K>,
    kept: &mut Vec<T>,
    task: T,
) -> Result<(), AllocError>
    requires parts { 0 < parts_of deque.old }
    requires kept { All K.waits kept.old.items }
    requires task { K.waits task }
    ensures same { SameWorker deque.old deque.new }
    ensures parts { parts_of deque.new ≡ parts_of deque.old }
    ensures taken { taken_of deque.new ≡ taken_of deque.old }
    ensures kept { All K.waits kept.new.items }
    ensures given { OnOk result ((h : T → ℕ) →
        total h (given_of deque.new) + total h kept.new.items
        ≡ total h (given_of deque.old) + (total h kept.old.items + h task)) }
    ensures ordered { OnOk result (HasGiven (task ∷ []) (given_of deque.old)
        (given_of deque.new) kept.old.items kept.new.items) }
{
    if !kept.is_empty() {
        kept.push(task)?;
        return Ok(());
    }
    match deque.push_as::<Gives>(task) {
        Ok(()) => Ok(()),
        Err(task) => {
            kept.push(task)?;
            Ok(())
        }
    }
}

/// Takes what is left in a deque.
pub(crate) fn drain<T: Drop, K: Known<T>>(
    deque: &mut Owner<T, K>,
    left: &mut Vec<T>,
) -> Result<(), AllocError>
    requires parts { parts_of deque.old ≡ all_parts }
    requires left { All K.waits left.old.items }
    ensures left { All K.waits left.new.items }
    ensures all { OnOk result ((h : T → ℕ) →
        total h (given_of deque.old) + total h left.old.items
        ≡ total h (taken_of deque.old) + total h left.new.items) }
{
    for _task in 0..u64::MAX {
        let Some(task) = deque.pop_as::<Drains<K>>() else {
            return Ok(());
        };
        left.push(task)?;
    }
    Err(AllocError)
}
