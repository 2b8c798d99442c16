//! What was run.

use std::alloc::{AllocError, Global};
use xs_core::place::Claim;
use xs_pieces::piece::{Desk, Piece};

/// Pieces that were run, and their claims.
#[derive(Drop)]
pub struct Log<T> {
    /// The pieces, each with its outcome.
    pub pieces: Vec<Piece<T>>,
    /// Who claimed them.
    pub claims: Vec<Claim>,
}

impl<T> Log<T> {
    ghost use Rattle.std.specs.Prelude.{◌≡◌, ◌++◌, [], OnOk};
    ghost use Rattle.xs_pool.specs.Together.{all_of};

    /// Nothing was run. It takes no memory.
    pub(crate) fn new(alloc: Global) -> Log<T>
        ensures pieces { result.pieces.items ≡ [] }
        ensures claims { result.claims.items ≡ [] }
    {
        Log {
            pieces: Vec::new(alloc),
            claims: Vec::new(alloc),
        }
    }

    /// What others ran comes behind, in their order.
    pub(crate) fn append_all(&mut self, mut others: Vec<Log<T>>) -> Result<(), AllocError>
    where
        T: Drop,
        ensures pieces { OnOk result (self.new.pieces.items
            ≡ self.old.pieces.items ++ all_of (λ g. g.pieces.items) others.items) }
        ensures claims { OnOk result (self.new.claims.items
            ≡ self.old.claims.items ++ all_of (λ g. g.claims.items) others.items) }
    {
        others.reverse();
        while let Some(other) = others.pop() {
            let Log {
                mut pieces,
                mut claims,
            } = other;
            self.pieces.append(&mut pieces)?;
            self.claims.append(&mut claims)?;
        }
        Ok(())
    }
}

/// A task was run: the desk at which it was, and the tasks that it left.
#[derive(Drop)]
pub struct Turn<T, S> {
    /// The desk.
    pub desk: Desk<S>,
    /// What it left, in order.
    pub children: Vec<T>,
}
