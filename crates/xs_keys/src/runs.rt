//! Runs of nodes, each gone over in a thread of its own where one can be started.

ghost use Rattle.std.specs.Prelude.{◌≡◌, ◌+◌, ◌^◌, ◌<◌, ℕ, IfOk, get_or, length};
ghost use Rattle.xs_keys.specs.steps.Pairs.{AreMatchTables, IsRun, bound, decls_in};

use crate::pairs::Gathered;
use std::alloc::{AllocError, Global};
use std::thread;
use std::thread::Threads;
use xs_sheet::declarations::KeyDecl;
use xs_tree::{Node, Tree};

/// The most runs.
const MOST: usize = 64;

/// The fewest nodes of a run, except the last.
const FEWEST: usize = 4096;

/// How nodes are cut into runs.
#[derive(Clone, Copy)]
pub(crate) struct Cut {
    /// How many nodes a run has, except the last.
    pub(crate) size: usize,
    /// How many runs there are.
    pub(crate) count: usize,
}

/// How many nodes a run of so many has.
pub(crate) fn size_of(count: usize) -> usize
    ensures positive { 0 < result }
{
    if count / MOST < FEWEST {
        FEWEST
    } else {
        count / MOST + 1
    }
}

/// What a key's declarations give, run by run.
pub(crate) fn gather<R: Threads + Sync>(
    rt: &R,
    alloc: Global,
    members: &[&KeyDecl],
    tables: &[Option<Vec<bool>>],
    tree: &Tree,
    cut: Cut,
) -> Result<Vec<Result<Gathered, AllocError>>, AllocError>
    requires tables { AreMatchTables tree.now (decls_in members.now) tables.now }
    ensures long { IfOk result (λ runs. length runs.items ≡ cut.count) }
    ensures runs { IfOk result (λ runs. (i : ℕ) (d : _) → i < cut.count
        → IsRun tree.now (decls_in members.now) cut.size i (get_or runs.items i d)) }
{
    let size = cut.size;
    let run = |i: usize| -> Result<Gathered, AllocError>
        requires { (i + 1 < 2 ^ 64) × AreMatchTables tree.now (decls_in members.now) tables.now }
        ensures { IsRun tree.entry.now (decls_in members.entry.now) size i result }
    { run_at(alloc, members, tables, tree, size, i) };
    thread::map_indices(rt, alloc, cut.count, &run)
}

// What they give in the run with a number.
fn run_at(
    alloc: Global,
    members: &[&KeyDecl],
    tables: &[Option<Vec<bool>>],
    tree: &Tree,
    size: usize,
    i: usize,
) -> Result<Gathered, AllocError>
    requires tables { AreMatchTables tree.now (decls_in members.now) tables.now }
    requires number { i + 1 < 2 ^ 64 }
    ensures { IsRun tree.now (decls_in members.now) size i result }
{
    let count = tree.len();
    let end = bound(size, count, i + 1);
    let mut gathered = Gathered::new(alloc);
    for place in bound(size, count, i)..end {
        gathered.add_node(alloc, members, tables, tree, Node::at(place as u32))?;
    }
    Ok(gathered)
}

// Where the run with a number begins.
fn bound(size: usize, count: usize, i: usize) -> usize
    ensures { result ≡ bound size count i }
{
    i.saturating_mul(size).min(count)
}
