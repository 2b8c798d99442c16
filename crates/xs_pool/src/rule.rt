//! The rule of a deque, and what each move on it tells.

use crossbeam_deque::protocol::{Join, Outcome, Protocol, Split};
use crossbeam_deque::{Pass, Stealer, Worker};
use std::alloc::Global;
use std::collections::LinkedList;
use std::marker::{Brand, PhantomData};

/// Which tasks a run knows: those that it may run, and of these those that may wait in a deque. A
/// call picks both, by `Brand`.
pub trait Known<T> {
    /// Which tasks it may run.
    ghost fits: { T → Type 0 };

    /// Which tasks may wait.
    ghost waits: { T → Type 0 };
}

impl<T> Known<T> for Brand {
    ghost use Rattle.std.specs.Prelude.{⊤};

    ghost fits = { λ _. ⊤ };

    ghost waits = { λ _. ⊤ };
}

/// What was moved with a pass, and how many parts it has of the right to know all moves. No value
/// of it is made: it is for proofs alone.
pub struct Moves<T> {
    /// How many parts.
    pub parts: u64,
    /// The tasks that were given to the deque.
    pub given: LinkedList<T>,
    /// The tasks that were taken from it.
    pub taken: LinkedList<T>,
}

/// What holds of a deque between any two moves: what was given is what was taken and what it
/// holds, and each task that it holds may wait there.
pub struct Balance<K> {
    of: PhantomData<K>,
}

impl<T, K: Known<T>> Protocol<T, Moves<T>> for Balance<K> {
    ghost use Rattle.std.specs.Prelude.{[]};
    ghost use Rattle.xs_pool.specs.Rule.{all_parts, moves, IsBalanced};

    ghost holds = { IsBalanced K.waits };

    ghost first = { moves all_parts [] [] };

    ghost guest = { moves 0 [] [] };
}

/// Its owner gives a task.
pub struct Gives;

impl<T> Outcome<T, Moves<T>> for Gives {
    ghost use Rattle.std.specs.Prelude.{◌≡◌, ◌++◌};
    ghost use Rattle.xs_pool.specs.Rule.{moves};

    ghost then = { λ v xs w. w ≡ moves v.parts (v.given ++ xs) v.taken };
}

/// Its owner or a thief takes a task.
pub struct Takes<K> {
    of: PhantomData<K>,
}

impl<T, K: Known<T>> Outcome<T, Moves<T>> for Takes<K> {
    ghost use Rattle.xs_pool.specs.Rule.{IsTaken};

    ghost then = { λ v xs w. IsTaken K.waits v xs w };
}

/// One who has all parts takes a task, or finds that all tasks were taken.
pub struct Drains<K> {
    of: PhantomData<K>,
}

impl<T, K: Known<T>> Outcome<T, Moves<T>> for Drains<K> {
    ghost use Rattle.xs_pool.specs.Rule.{IsSpent, IsTaken};

    ghost then = { λ v xs w. IsTaken K.waits v xs w };

    ghost empty = { λ v. IsSpent v };
}

/// A part is split off, and parts are joined.
pub struct Parts;

impl<T> Split<Moves<T>> for Parts {
    ghost use Rattle.std.specs.Prelude.{◌-◌, []};
    ghost use Rattle.xs_pool.specs.Rule.{moves};

    ghost left = { λ v. moves (v.parts - 1) v.given v.taken };

    ghost right = { λ v. moves 1 [] [] };
}

impl<T> Join<Moves<T>> for Parts {
    ghost use Rattle.std.specs.Prelude.{[]};
    ghost use Rattle.xs_pool.specs.Rule.{joined, moves};

    ghost both = { λ v w. joined v w };

    ghost spent = { moves 0 [] [] };
}

/// The end of a deque at which its worker gives and takes.
pub type Owner<T, K> = Worker<T, Global, Moves<T>, Balance<K>>;

/// The other end, at which thieves take.
pub type Thief<T, K> = Stealer<T, Global, Moves<T>, Balance<K>>;

/// A right to take from one deque.
pub type Right<T> = Pass<T, Moves<T>, Global>;
