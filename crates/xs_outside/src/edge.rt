//! The traits of the edge, with what a contract may know of each.

ghost use Rattle.std.specs.Prelude.{◌≡◌, ℕ, ◌+◌, ◌<◌, ◌≤◌, Option, List, ◌++◌, length, take, IfOk};
ghost use Rattle.std.specs.Prelude.{IfSome, OnErr, MatchOption};
ghost use Rattle.xs_outside.specs.Edge.{Files, asked_after, failed_after, raised};
ghost use Rattle.xs_outside.specs.declared.edge.FetchEnd.TheVariants.{NoMemory};

use std::alloc::{AllocError, Global};
use thiserror::Error;

/// Why a fetch gave no bytes.
#[derive(Debug, Drop, Error)]
pub enum FetchEnd {
    /// The file could not be read.
    #[error("the file could not be read")]
    Failed,
    /// There is no memory for its bytes.
    #[error("out of memory")]
    NoMemory,
}

impl From<AllocError> for FetchEnd {
    ghost from_gives = { λ _ e. e ≡ NoMemory };

    /// A refused growth is out of memory.
    fn from(_refused: AllocError) -> FetchEnd {
        FetchEnd::NoMemory
    }
}

/// Where files come from.
pub trait Library {
    /// The names that were asked for, oldest first. It grows only at its end.
    ghost asked: { Self → List (List ℕ) };

    /// The names whose fetch failed, oldest first. It grows only at its end.
    ghost failed: { Self → List (List ℕ) };

    /// The files, where the library reports them. No call changes them.
    ghost files: { Self → Option Files };

    /// The bytes of `name`, cut after `limit + 1` of them, so that a caller sees that a file is
    /// longer.
    ///
    /// Bytes and `Failed` add `name` to the names that were asked for, and `Failed` alone to those
    /// that failed; `NoMemory` adds it to neither.
    fn fetch(&mut self, alloc: Global, name: &str, limit: u64) -> Result<Vec<u8>, FetchEnd>
        ensures files_stay { files self.new ≡ files self.old }
        ensures asked { asked self.new ≡ asked_after result name.now (asked self.old) }
        ensures failed { failed self.new ≡ failed_after result name.now (failed self.old) }
        ensures cut { IfOk result (λ v. length v.items ≤ limit + 1) }
        ensures bytes { IfOk result (λ v. IfSome (files self.old)
            (λ f. MatchOption (f name.now) ⊥ (λ b. v.items ≡ take (limit + 1) b))) };
}

/// A write failed.
#[derive(Debug, Drop, Error)]
#[error("the write failed")]
pub struct Failed;

/// Where bytes go.
pub trait Sink {
    /// How many writes have failed; a count that is at the end of 64 bits stays there. It never
    /// falls.
    ghost faults: { Self → ℕ };

    /// The bytes that the sink holds, where it reports them.
    ghost held: { Self → Option (List ℕ) };

    /// Takes a beginning of `bytes`, at least one byte where there is one, and answers how many.
    ///
    /// `Failed` takes none, and is counted; no other answer is. It needs no memory of the caller's.
    fn write(&mut self, bytes: &[u8]) -> Result<usize, Failed>
        ensures count { faults self.old ≤ faults self.new }
        ensures count_stays { IfOk result (λ _. faults self.new ≡ faults self.old) }
        ensures taken { IfOk result (λ n. (n ≤ length bytes.now) × (0 < length bytes.now → 0 < n)) }
        ensures count_raised { OnErr result (faults self.new ≡ raised (faults self.old)) }
        ensures held_ok { IfOk result (λ n. IfSome (held self.old)
            (λ b. held self.new ≡ Some (b ++ take n bytes.now))) }
        ensures held_err { OnErr result (held self.new ≡ held self.old) };
}

/// What a worker passes after each claim. It reports nothing, and changes nothing that a contract
/// names.
pub trait Gate: Sync {
    /// Called by the worker numbered `worker` once it has made `taken` claims.
    fn pass(&self, worker: u32, taken: u64);
}

/// A gate that holds no one.
#[derive(Drop)]
pub struct OpenGate;

impl Gate for OpenGate {
    // Returns at once.
    fn pass(&self, _worker: u32, _taken: u64) {}
}
