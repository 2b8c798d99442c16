//! Rows of items: what is recorded lies in one.
ghost use Rattle.std.specs.Prelude.{◌≡◌, ◌+◌, ◌<◌, ◌≤◌, ℕ, List, [], ◌∷◌, ◌++◌, OnOk, OnErr, IfOk};
ghost use Rattle.xs_block.specs.Chain.{most_blocks, spare_of};
ghost use Rattle.xs_record.specs.Segment.{items_of, run_items};
ghost use Rattle.xs_trace.specs.declared.item.Item.{Item};

use crate::segment::{Run, Segment};
use std::alloc::{AllocError, Global};
use std::mem::replace;
use xs_block::chain::Chain;
use xs_block::pool::Pool;
use xs_trace::item::Item;

/// A log of items, which are pushed at its end, and taken out all at once. After a refusal it has
/// the items that it had.
pub trait ItemLog {
    /// What items that are taken out lie in.
    type Taken;

    /// Its items, in order.
    ghost items: { Self → List Item };

    /// How many blocks it has, with and without items.
    ghost blocks: { Self → ℕ };

    /// The items that were taken out, in order.
    ghost taken_items: { Self.Taken → List Item };

    /// How many blocks they lie in.
    ghost taken_blocks: { Self.Taken → ℕ };

    /// Some ticks more.
    fn push_run(&mut self, run: Run) -> Result<(), AllocError>
        ensures items { OnOk result (items self.new ≡ items self.old ++ run_items run) }
        ensures refused { OnErr result (items self.new ≡ items self.old) }
        ensures blocks { blocks self.old ≤ blocks self.new };

    /// Some ticks more, and an item after them.
    fn push(&mut self, run: Run, item: Item) -> Result<(), AllocError>
        ensures items { OnOk result
            (items self.new ≡ items self.old ++ run_items run ++ item ∷ []) }
        ensures refused { OnErr result (items self.new ≡ items self.old) }
        ensures blocks { blocks self.old ≤ blocks self.new };

    /// All items, and some ticks after them; none is left.
    fn take(&mut self, run: Run) -> Result<Self::Taken, AllocError>
        ensures taken { IfOk result (λ taken.
            Self.taken_items taken ≡ items self.old ++ run_items run) }
        ensures items { OnOk result (items self.new ≡ []) }
        ensures refused { OnErr result (items self.new ≡ items self.old) }
        ensures blocks { IfOk result (λ taken.
            blocks self.old ≤ blocks self.new + Self.taken_blocks taken) }
        ensures all { OnErr result (blocks self.old ≤ blocks self.new) };
}

/// A chain of segments, and the pool that it takes its blocks from.
#[derive(Drop)]
pub struct ChainLog {
    alloc: Global,
    chain: Chain<Segment>,
    pool: Pool<Segment>,
    // The last ticks, at up to two places, while no segment has them.
    first: Run,
    last: Run,
}

impl ItemLog for ChainLog {
    ghost use Rattle.std.specs.Prelude.{◌+◌, ◌++◌};
    ghost use Rattle.xs_block.specs.Chain.{blocks_of};
    ghost use Rattle.xs_record.specs.Segment.{items_of, run_items};

    type Taken = Chain<Segment>;

    ghost items = { λ r. items_of r.chain ++ (run_items r.first ++ run_items r.last) };

    ghost blocks = { λ r. r.pool + blocks_of r.chain };

    ghost taken_items = { items_of };

    ghost taken_blocks = { blocks_of };

    /// They wait for an item; of three that wait, the third is itself an item after the others.
    #[inline(always)]
    fn push_run(&mut self, run: Run) -> Result<(), AllocError> {
        if run.ticks == 0 {
            return Ok(());
        }
        if self.first.ticks > 0 {
            return self.push_third(run);
        }
        self.first = self.last;
        self.last = run;
        Ok(())
    }

    /// In one segment with all ticks before it, where that has room for them.
    #[inline(always)]
    fn push(&mut self, run: Run, item: Item) -> Result<(), AllocError> {
        if self.first.ticks > 0 {
            return self.push_after_three(run, item);
        }
        if run.ticks == 0 && self.last.ticks == 0 {
            return self.push_item(item);
        }
        let before = self.before(run);
        self.push_beside(before, run, item)
    }

    /// The chain, sealed where there is memory for it.
    fn take(&mut self, run: Run) -> Result<Chain<Segment>, AllocError> {
        self.pool.reserve(&self.chain, 3)?;
        self.push_waiting(run);
        let _refused = self.pool.seal(&mut self.chain);
        Ok(replace(&mut self.chain, Chain::new(self.alloc)))
    }
}

impl ChainLog {
    /// No items, with the blocks of a pool.
    pub fn new(alloc: Global, pool: Pool<Segment>) -> ChainLog
        ensures items { ⟦<ChainLog as ItemLog>⟧.items result ≡ [] }
        ensures blocks { ⟦<ChainLog as ItemLog>⟧.blocks result ≡ pool }
    {
        ChainLog {
            alloc,
            chain: Chain::new(alloc),
            pool,
            first: Run::none(),
            last: Run::none(),
        }
    }

    /// The pool, with the blocks of the items.
    pub fn into_pool(self) -> Pool<Segment>
        ensures blocks { (n : ℕ) → n ≤ most_blocks → n ≤ ⟦<ChainLog as ItemLog>⟧.blocks self
            → n ≤ result }
    {
        let ChainLog {
            chain,
            mut pool,
            ..
        } = self;
        pool.give_back(chain);
        pool
    }

    /// The last ticks, or none, in the module of others.
    #[inline(always)]
    fn before(&self, run: Run) -> Run
        ensures before { run_items result ≡ run_items self.now.last }
    {
        if self.last.ticks > 0 {
            return self.last;
        }
        Run {
            site: run.site,
            ticks: 0,
        }
    }

    /// An item, where no ticks are before it.
    #[inline(always)]
    fn push_item(&mut self, item: Item) -> Result<(), AllocError>
        requires first { self.old.first.ticks ≡ 0 }
        requires last { self.old.last.ticks ≡ 0 }
        ensures items { OnOk result (⟦<ChainLog as ItemLog>⟧.items self.new
            ≡ ⟦<ChainLog as ItemLog>⟧.items self.old ++ item ∷ []) }
        ensures refused { OnErr result
            (⟦<ChainLog as ItemLog>⟧.items self.new ≡ ⟦<ChainLog as ItemLog>⟧.items self.old) }
        ensures blocks { ⟦<ChainLog as ItemLog>⟧.blocks self.old
            ≤ ⟦<ChainLog as ItemLog>⟧.blocks self.new }
    {
        self.pool.reserve(&self.chain, 1)?;
        let segment = Segment::of(item);
        self.pool.push(&mut self.chain, segment);
        Ok(())
    }

    /// Ticks at a third place, as an item after the others.
    #[inline(never)]
    fn push_third(&mut self, run: Run) -> Result<(), AllocError>
        requires some { 0 < run.ticks }
        ensures items { OnOk result (⟦<ChainLog as ItemLog>⟧.items self.new
            ≡ ⟦<ChainLog as ItemLog>⟧.items self.old ++ run_items run) }
        ensures refused { OnErr result
            (⟦<ChainLog as ItemLog>⟧.items self.new ≡ ⟦<ChainLog as ItemLog>⟧.items self.old) }
        ensures blocks { ⟦<ChainLog as ItemLog>⟧.blocks self.old
            ≤ ⟦<ChainLog as ItemLog>⟧.blocks self.new }
    {
        self.push_beside(self.first, self.last, run.item())
    }

    /// Ticks at a third place, if there are any, and an item after them.
    #[inline(never)]
    fn push_after_three(&mut self, run: Run, item: Item) -> Result<(), AllocError>
        ensures items { OnOk result (⟦<ChainLog as ItemLog>⟧.items self.new
            ≡ ⟦<ChainLog as ItemLog>⟧.items self.old ++ run_items run ++ item ∷ []) }
        ensures refused { OnErr result
            (⟦<ChainLog as ItemLog>⟧.items self.new ≡ ⟦<ChainLog as ItemLog>⟧.items self.old) }
        ensures blocks { ⟦<ChainLog as ItemLog>⟧.blocks self.old
            ≤ ⟦<ChainLog as ItemLog>⟧.blocks self.new }
    {
        if run.ticks == 0 {
            return self.push_beside(self.first, self.last, item);
        }
        self.pool.reserve(&self.chain, 4)?;
        self.push_waiting(run);
        let segment = Segment::of(item);
        self.pool.push(&mut self.chain, segment);
        Ok(())
    }

    /// Ticks at up to two places and an item after them, in one segment where that has room for
    /// them. No ticks wait any more.
    #[inline(always)]
    fn push_beside(&mut self, first: Run, last: Run, item: Item) -> Result<(), AllocError>
        ensures items { OnOk result (⟦<ChainLog as ItemLog>⟧.items self.new
            ≡ items_of self.old.chain ++ (run_items first ++ (run_items last ++ item ∷ []))) }
        ensures refused { OnErr result
            (⟦<ChainLog as ItemLog>⟧.items self.new ≡ ⟦<ChainLog as ItemLog>⟧.items self.old) }
        ensures blocks { ⟦<ChainLog as ItemLog>⟧.blocks self.old
            ≤ ⟦<ChainLog as ItemLog>⟧.blocks self.new }
    {
        if !first.is_beside(last) {
            return self.push_apart(first, last, item);
        }
        self.pool.reserve(&self.chain, 1)?;
        let segment = Segment::after_ticks(first, last, item);
        self.pool.push(&mut self.chain, segment);
        self.wait_for_none();
        Ok(())
    }

    /// Ticks at up to two places and an item after them, each in its own segment. No ticks wait any
    /// more.
    #[inline(never)]
    fn push_apart(&mut self, first: Run, last: Run, item: Item) -> Result<(), AllocError>
        ensures items { OnOk result (⟦<ChainLog as ItemLog>⟧.items self.new
            ≡ items_of self.old.chain ++ (run_items first ++ (run_items last ++ item ∷ []))) }
        ensures refused { OnErr result
            (⟦<ChainLog as ItemLog>⟧.items self.new ≡ ⟦<ChainLog as ItemLog>⟧.items self.old) }
        ensures blocks { ⟦<ChainLog as ItemLog>⟧.blocks self.old
            ≤ ⟦<ChainLog as ItemLog>⟧.blocks self.new }
    {
        self.pool.reserve(&self.chain, 3)?;
        self.push_ticks(first);
        self.push_ticks(last);
        let segment = Segment::of(item);
        self.pool.push(&mut self.chain, segment);
        self.wait_for_none();
        Ok(())
    }

    /// The ticks that wait, and others after them. It takes no memory; no ticks wait any more.
    fn push_waiting(&mut self, run: Run)
        requires spare { 3 ≤ spare_of self.old.pool self.old.chain }
        ensures items { items_of self.new.chain
            ≡ ⟦<ChainLog as ItemLog>⟧.items self.old ++ run_items run }
        ensures none { run_items self.new.first ++ run_items self.new.last ≡ [] }
        ensures spare { spare_of self.old.pool self.old.chain
            ≤ spare_of self.new.pool self.new.chain + 3 }
        ensures blocks { ⟦<ChainLog as ItemLog>⟧.blocks self.new
            ≡ ⟦<ChainLog as ItemLog>⟧.blocks self.old }
    {
        self.push_together(run);
        self.wait_for_none();
    }

    /// The ticks that wait, and others after them, in one segment where that has room for them. It
    /// takes no memory.
    fn push_together(&mut self, run: Run)
        requires spare { 3 ≤ spare_of self.old.pool self.old.chain }
        ensures items { items_of self.new.chain
            ≡ ⟦<ChainLog as ItemLog>⟧.items self.old ++ run_items run }
        ensures spare { spare_of self.old.pool self.old.chain
            ≤ spare_of self.new.pool self.new.chain + 3 }
        ensures blocks { ⟦<ChainLog as ItemLog>⟧.blocks self.new
            ≡ ⟦<ChainLog as ItemLog>⟧.blocks self.old }
    {
        if run.ticks > 0 {
            if self.first.is_beside(self.last) {
                let segment = Segment::after_ticks(self.first, self.last, run.item());
                self.pool.push(&mut self.chain, segment);
                return;
            }
        }
        self.push_each(run);
    }

    /// The ticks that wait, and others after them, each as a segment. It takes no memory.
    fn push_each(&mut self, run: Run)
        requires spare { 3 ≤ spare_of self.old.pool self.old.chain }
        ensures items { items_of self.new.chain
            ≡ ⟦<ChainLog as ItemLog>⟧.items self.old ++ run_items run }
        ensures spare { spare_of self.old.pool self.old.chain
            ≤ spare_of self.new.pool self.new.chain + 3 }
        ensures blocks { ⟦<ChainLog as ItemLog>⟧.blocks self.new
            ≡ ⟦<ChainLog as ItemLog>⟧.blocks self.old }
    {
        self.push_ticks(self.first);
        self.push_ticks(self.last);
        self.push_ticks(run);
    }

    /// Some ticks, if there are any, as a segment. It takes no memory.
    fn push_ticks(&mut self, run: Run)
        requires spare { 0 < spare_of self.old.pool self.old.chain }
        ensures items { items_of self.new.chain ≡ items_of self.old.chain ++ run_items run }
        ensures first { self.new.first ≡ self.old.first }
        ensures last { self.new.last ≡ self.old.last }
        ensures spare { spare_of self.old.pool self.old.chain
            ≤ spare_of self.new.pool self.new.chain + 1 }
        ensures blocks { ⟦<ChainLog as ItemLog>⟧.blocks self.new
            ≡ ⟦<ChainLog as ItemLog>⟧.blocks self.old }
    {
        if run.ticks == 0 {
            return;
        }
        let segment = Segment::of_ticks(run);
        self.pool.push(&mut self.chain, segment);
    }

    /// No ticks wait for an item.
    #[inline(always)]
    fn wait_for_none(&mut self)
        ensures none { run_items self.new.first ++ run_items self.new.last ≡ [] }
        ensures chain { self.new.chain ≡ self.old.chain }
        ensures pool { self.new.pool ≡ self.old.pool }
    {
        self.first = Run::none();
        self.last = Run::none();
    }
}
