//! A worker.

use crate::log::Log;
use crate::rule::{Known, Owner, Right};
use xs_ledger::total::LedgerTotal;
use xs_pieces::piece::Desk;

/// A worker.
#[derive(Drop)]
pub struct Member<T, K: Known<T>> {
    /// Its number, from 0.
    pub number: u32,
    /// Its deque.
    pub deque: Owner<T, K>,
    /// Its rights to take from all deques.
    pub rights: Vec<Right<T>>,
    /// Its desk.
    pub desk: Desk<LedgerTotal>,
    /// What it has run.
    pub log: Log<T>,
    /// Tasks that its deque refused, and later ones; nobody else can take them.
    pub kept: Vec<T>,
}
