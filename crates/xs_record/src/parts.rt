//! A store of marks with holes.
ghost use Rattle.std.specs.Prelude.{◌≡◌, ◌+◌, ◌<◌, ◌≤◌, ◌++◌, ◌∷◌, [], ℕ, length};
ghost use Rattle.std.specs.Prelude.{OnOk, OnErr, IfOk};
ghost use Rattle.std.specs.Vec.{vec_len, vec_capacity};
ghost use Rattle.xs_block.specs.Chain.{blocks_of, most_blocks};
ghost use Rattle.xs_trace.specs.Mark.{Hole};
ghost use Rattle.xs_trace.specs.State.{top, below};
ghost use Rattle.xs_trace.specs.Kept.{marks_of, item_marks, IsPacked, IsSingle};
ghost use Rattle.xs_record.specs.Store.{Held, empty, counted, marked, is_open};
ghost use Rattle.xs_record.specs.Store.{behind, with_captures, put_into};
ghost use Rattle.xs_trace.specs.Fill.{numbered, tasks_of};
ghost use Rattle.xs_record.specs.Outcome.{AreParts, AreSections, part_blocks};
ghost use Rattle.xs_record.specs.Outcome.{part_marks, section_marks};
ghost use Rattle.xs_record.specs.Segment.{items_of};

use crate::log::ChainLog;
use crate::marks::Marks;
use crate::outcome::{Part, free_parts};
use crate::segment::Segment;
use std::alloc::{AllocError, Global};
use std::marker::Model;
use xs_block::chain::Chain;
use xs_block::pool::Pool;
use xs_trace::event::{Event, Fragment};
use xs_trace::item::{Item, Site};

/// What was recorded, cut at its holes, and the captures that are open.
#[derive(Drop)]
pub(crate) struct Parts<H> {
    // What was recorded before each hole, and the task that fills it.
    before: Vec<Part>,
    tasks: Vec<H>,
    marks: Marks<ChainLog, H>,
}

impl<H> Model for Parts<H> {
    ghost Value = { Held H };

    ghost view = { λ p. record {
      store = behind (section_marks p.before.items p.tasks.items) p.marks.store;
      blocks = part_blocks p.before.items + p.marks.blocks;
    } };

    ghost invariant = { λ p.
        AreSections 0 p.before.items × (length p.tasks.items ≡ length p.before.items) };
}

/// What is left of a store: its parts, or out of memory, and the pool.
#[derive(Drop)]
pub(crate) struct Left {
    pub(crate) parts: Result<Vec<Part>, AllocError>,
    pub(crate) pool: Pool<Segment>,
}

impl<H: Drop> Parts<H> {
    /// Nothing was recorded yet.
    pub(crate) fn new(alloc: Global, pool: Pool<Segment>) -> Parts<H>
        ensures empty { result.store ≡ empty }
        ensures blocks { result.blocks ≡ pool }
    {
        Parts {
            before: Vec::new(alloc),
            tasks: Vec::new(alloc),
            marks: Marks::new(alloc, ChainLog::new(alloc, pool)),
        }
    }

    /// The place of the last tick.
    pub(crate) fn at(&self) -> Site
        ensures at { result ≡ self.now.store.at }
    {
        self.marks.at()
    }

    /// Whether a capture is open.
    #[inline(always)]
    pub(crate) fn is_capturing(&self) -> bool
        ensures open { result ≡ is_open self.now.store.captures }
    {
        self.marks.is_capturing()
    }

    /// Some ticks more. There is no room for 2^64 of them in one run.
    #[tactic(auto, using(crate::proofs::SectionLemmas::behind_counted))]
    pub(crate) fn count(&mut self, site: Site, count: u64) -> Result<(), AllocError>
        ensures reported { OnOk result (self.new.store ≡ counted site count self.old.store) }
        ensures blocks { self.old.blocks ≤ self.new.blocks }
    {
        self.marks.count(site, count)
    }

    /// An event, to the innermost capture or else among the marks.
    #[tactic(auto, using(crate::proofs::SectionLemmas::behind_put))]
    #[inline(always)]
    pub(crate) fn put(&mut self, event: Event) -> Result<(), AllocError>
        ensures reported { OnOk result
            (self.new.store ≡ put_into self.old.store.captures event self.old.store) }
        ensures blocks { self.old.blocks ≤ self.new.blocks }
    {
        self.marks.put(event)
    }

    /// An item that is no run of ticks.
    #[tactic(auto, using(crate::proofs::SectionLemmas::behind_marked))]
    pub(crate) fn push(&mut self, item: Item) -> Result<(), AllocError>
        requires single { IsSingle item }
        ensures reported { OnOk result (self.new.store ≡ marked (item_marks item) self.old.store) }
        ensures blocks { self.old.blocks ≤ self.new.blocks }
    {
        self.marks.push(item)
    }

    /// A hole. Room for it is made first, so that a refusal loses no block.
    pub(crate) fn hole(&mut self, task: H) -> Result<(), AllocError>
        ensures reported { OnOk result (self.new.store ≡ marked (Hole task ∷ []) self.old.store) }
        ensures blocks { self.old.blocks ≤ self.new.blocks }
    {
        self.before.reserve(1)?;
        self.tasks.reserve(1)?;
        let items = self.marks.take()?;
        let hole = Some(self.before.len() as u64);
        self.before.push_reserved(Part { items, hole });
        self.tasks.push_reserved(task);
        Ok(())
    }

    /// A capture is opened.
    pub(crate) fn open(&mut self) -> Result<(), AllocError>
        ensures reported { OnOk result
            (self.new.store ≡ with_captures ([] ∷ self.old.store.captures) self.old.store) }
        ensures blocks { self.new.blocks ≡ self.old.blocks }
    {
        self.marks.open()
    }

    /// The innermost capture is closed.
    pub(crate) fn close(&mut self) -> Fragment
        ensures events { result ≡ top self.old.store.captures }
        ensures rest { self.new.store
            ≡ with_captures (below self.old.store.captures) self.old.store }
        ensures blocks { self.new.blocks ≡ self.old.blocks }
    {
        self.marks.close()
    }

    /// What was recorded, as parts; the tasks of their holes are appended to the children. The pool
    /// comes back whatever the answer: out of memory, with all blocks.
    pub(crate) fn finish(self, children: &mut Vec<H>) -> Left
        ensures marks { IfOk result.parts (λ ps.
            part_marks ps.items ≡ numbered 0 self.store.reported) }
        ensures parts { IfOk result.parts (λ ps. AreParts 0 ps.items) }
        ensures tasks { IfOk result.parts (λ ps.
            children.new.items ≡ children.old.items ++ tasks_of self.store.reported) }
        ensures blocks { IfOk result.parts (λ ps. (n : ℕ) → n ≤ most_blocks → n ≤ self.blocks
            → n ≤ part_blocks ps.items + result.pool) }
        ensures refused { OnErr result.parts (children.new.items ≡ children.old.items) }
        ensures free { OnErr result.parts ((n : ℕ) → n ≤ most_blocks → n ≤ self.blocks
            → n ≤ result.pool) }
    {
        let Parts {
            mut before,
            mut tasks,
            mut marks,
        } = self;
        match take_last(&mut before, &mut marks) {
            Ok(items) => before.push_reserved(Part { items, hole: None }),
            Err(refused) => {
                return Left {
                    parts: Err(refused),
                    pool: reclaim(marks.into_log().into_pool(), before),
                };
            }
        }
        let pool = marks.into_log().into_pool();
        match children.append(&mut tasks) {
            Ok(()) => Left {
                parts: Ok(before),
                pool,
            },
            Err(refused) => Left {
                parts: Err(refused),
                pool: reclaim(pool, before),
            },
        }
    }

    /// The pool, with all blocks.
    pub(crate) fn into_pool(self) -> Pool<Segment>
        ensures blocks { (n : ℕ) → n ≤ most_blocks → n ≤ self.blocks → n ≤ result }
    {
        let Parts { before, marks, .. } = self;
        reclaim(marks.into_log().into_pool(), before)
    }
}

/// The items that no hole follows, and room for one part more.
fn take_last<H: Drop>(
    before: &mut Vec<Part>,
    marks: &mut Marks<ChainLog, H>,
) -> Result<Chain<Segment>, AllocError>
    ensures before { before.new.items ≡ before.old.items }
    ensures room { OnOk result (vec_len before.new < vec_capacity before.new) }
    ensures items { IfOk result (λ items. marks_of (items_of items) ≡ marks.old.store.reported) }
    ensures packed { IfOk result (λ items. IsPacked (items_of items)) }
    ensures blocks { IfOk result (λ items.
        marks.old.blocks ≤ marks.new.blocks + blocks_of items) }
    ensures refused { OnErr result (marks.old.blocks ≤ marks.new.blocks) }
{
    before.reserve_exact(1)?;
    marks.take()
}

/// A pool with the blocks of parts that are of no use any more.
fn reclaim(mut pool: Pool<Segment>, parts: Vec<Part>) -> Pool<Segment>
    ensures blocks { (n : ℕ) → n ≤ most_blocks → n ≤ part_blocks parts.items + pool → n ≤ result }
{
    free_parts(&mut pool, parts);
    pool
}
