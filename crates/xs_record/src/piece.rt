//! A recorder of a piece of a run, which takes holes and adds its ticks to a shared total.
ghost use Rattle.std.specs.Prelude.{◌≡◌, ◌+◌, ◌*◌, ◌<◌, ◌≤◌, ℕ, Some, true, IfOk, OnErr};
ghost use Rattle.xs_block.specs.Chain.{most_blocks};
ghost use Rattle.xs_trace.specs.Kept.{IsEnded, NeedsNone};
ghost use Rattle.xs_record.specs.Outcome.{part_blocks};
ghost use Rattle.xs_record.specs.Paying.{IsOpen};
ghost use Rattle.xs_record.specs.Piece.{HasAdded, Paid, held, started, AreUnpaid, IsPieceOf};
ghost use Rattle.xs_record.specs.Store.{limited_to};

use crate::ending::ended;
use crate::outcome::Outcome;
use crate::parts::{Left, Parts};
use crate::paying::{pay, settle};
use crate::room::spend;
use crate::segment::Segment;
use std::alloc::{AllocError, Global};
use xs_block::pool::Pool;
use xs_text::TextBuf;
use xs_trace::event::{Event, Fragment};
use xs_trace::item::{Ended, Item, Limits, Site};
use xs_trace::recorder::{Halt, Recorder, Tally, tick_several};
use xs_trace::total::Total;

/// What comes back from a recorder of a piece.
#[derive(Drop)]
pub struct Finished<T> {
    /// What the piece gave, or out of memory.
    pub outcome: Result<Outcome, AllocError>,
    /// Its share in the total.
    pub total: T,
    /// The pool that its blocks came from.
    pub pool: Pool<Segment>,
}

/// Records what a piece does, and adds its ticks to a shared total at each 1,024 and at its end. It
/// ends the run where that total is above the most. `H` is what fills a hole.
///
/// A whole run is a piece that leaves no holes, with a total that nobody else adds to.
#[derive(Drop)]
pub struct PieceRecorder<T: Total, H> {
    parts: Parts<H>,
    room: Option<u64>,
    left: u64,
    limits: Limits,
    total: T,
    // How many ticks were not added yet, and how often 1,024 were.
    unpaid: u64,
    additions: u64,
    // How many free blocks the pool had at the start.
    free: usize,
    ghost few: { unpaid < 1024 },
    ghost open: { IsOpen (T.most total) (T.last total) unpaid },
    ghost all: { left + (1024 * additions + unpaid) ≡ limits.ticks },
    ghost enough: { free ≤ parts.blocks },
    ghost counted: { free ≤ most_blocks },
}

impl<T: Total, H: Drop> Tally for PieceRecorder<T, H> {
    type Task = H;

    ghost Kept = { Paid T.Kept };

    ghost kept = { λ p. record {
      limits = p.limits;
      total = T.kept p.total;
      most = T.most p.total;
      all = T.added p.total + (p.unpaid + p.left);
      free = p.free;
    } };

    ghost state = { λ p. limited_to p.room p.left
        (held (T.most p.total) (T.last p.total) p.left) p.parts.store };

    /// One tick, added to the total with those before it where they are 1,024. Nobody who keeps the
    /// contract asks for one after the total was above the most.
    fn tick(&mut self, site: Site) -> Result<(), Halt> {
        if self.total.above().is_some() {
            return Err(Halt::NoMemory);
        }
        if self.left == 0 {
            return Err(Halt::Spent(site));
        }
        self.parts.count(site, 1)?;
        self.left -= 1;
        if self.unpaid == 1023 {
            self.unpaid = 0;
            self.additions += 1;
            return pay(&mut self.total, 1024);
        }
        self.unpaid += 1;
        Ok(())
    }
}

impl<T: Total, H: Drop> Recorder for PieceRecorder<T, H> {
    ghost takes_holes = { true };

    /// One by one.
    #[inline(always)]
    fn ticks(&mut self, site: Site, count: u64) -> Result<(), Halt> {
        tick_several(self, site, count)
    }

    /// To the innermost capture, or to the result while there is room.
    #[tactic(auto, using(crate::proofs::StoreLemmas::put_full, crate::proofs::StoreLemmas::put_spent, crate::proofs::StoreLemmas::put_captured))]
    #[inline(always)]
    fn put(&mut self, event: Event) -> Result<(), Halt> {
        if self.parts.is_capturing() {
            self.parts.put(event)?;
            return Ok(());
        }
        if !spend(&mut self.room) {
            return Err(Halt::Full(self.parts.at()));
        }
        self.parts.put(event)?;
        Ok(())
    }

    /// After what was recorded.
    fn say(&mut self, text: TextBuf) -> Result<(), Halt> {
        self.parts.push(Item::Say(text))?;
        Ok(())
    }

    /// A part ends here.
    fn hole(&mut self, task: H) -> Result<(), Halt> {
        self.parts.hole(task)?;
        Ok(())
    }

    /// One more is open.
    fn open_capture(&mut self) -> Result<(), Halt> {
        self.parts.open()?;
        Ok(())
    }

    /// One less is open.
    fn close_capture(&mut self) -> Fragment {
        self.parts.close()
    }
}

impl<T: Total + Drop, H: Drop> PieceRecorder<T, H> {
    /// Nothing was recorded yet.
    pub fn new(alloc: Global, limits: Limits, total: T, pool: Pool<Segment>) -> PieceRecorder<T, H>
        ensures begins { ⟦<PieceRecorder<T, H> as Tally>⟧.state result
            ≡ started limits (T.most total) (T.last total) }
        ensures kept { ⟦<PieceRecorder<T, H> as Tally>⟧.kept result ≡ record {
          limits = limits;
          total = T.kept total;
          most = T.most total;
          all = T.added total + limits.ticks;
          free = pool;
        } }
    {
        let free = pool.free_blocks();
        PieceRecorder {
            parts: Parts::new(alloc, pool),
            room: limits.events,
            left: limits.ticks,
            limits,
            total,
            unpaid: 0,
            additions: 0,
            free,
        }
    }

    /// How many ticks were not added to the total yet: those past the last full 1,024.
    pub fn unpaid(&self) -> u64
        ensures unpaid { (left : ℕ) →
            (⟦<PieceRecorder<T, H> as Tally>⟧.state self.now).left ≡ Some left →
            AreUnpaid result left (⟦<PieceRecorder<T, H> as Tally>⟧.kept self.now).limits.ticks }
    {
        self.unpaid
    }

    /// The share in the total. All ticks were added through it but those that are unpaid.
    #[tactic(auto, using(crate::proofs::PieceLemmas::has_added))]
    pub fn total(&self) -> &T
        ensures added { (left : ℕ) →
            (⟦<PieceRecorder<T, H> as Tally>⟧.state self.now).left ≡ Some left →
            HasAdded (⟦<PieceRecorder<T, H> as Tally>⟧.kept self.now).all
            (⟦<PieceRecorder<T, H> as Tally>⟧.kept self.now).limits.ticks left
            (T.added result.now) }
    {
        &self.total
    }

    /// What a piece gave that ended so, and needed no global, after its last addition. The tasks of
    /// its holes are appended to the children. The share and the pool come back in each case.
    pub fn finish(self, reported: Result<(), Halt>, children: &mut Vec<H>) -> Finished<T>
        requires settled { NeedsNone reported }
        ensures piece { IfOk result.outcome
            (IsPieceOf (⟦<PieceRecorder<T, H> as Tally>⟧.kept self) reported
            (⟦<PieceRecorder<T, H> as Tally>⟧.state self) (T.added result.total)
            (T.last result.total) children.old.items children.new.items) }
        ensures refused { OnErr result.outcome (children.new.items ≡ children.old.items) }
        ensures kept { T.kept result.total
            ≡ (⟦<PieceRecorder<T, H> as Tally>⟧.kept self).total }
        ensures most { T.most result.total
            ≡ (⟦<PieceRecorder<T, H> as Tally>⟧.kept self).most }
        ensures blocks { IfOk result.outcome (λ o.
            (⟦<PieceRecorder<T, H> as Tally>⟧.kept self).free
            ≤ part_blocks o.parts.items + result.pool) }
        ensures free { OnErr result.outcome
            ((⟦<PieceRecorder<T, H> as Tally>⟧.kept self).free ≤ result.pool) }
    {
        match ended(reported) {
            Ok(ended) => self.close(ended, children),
            Err(refused) => {
                let PieceRecorder { parts, total, .. } = self;
                Finished {
                    outcome: Err(refused),
                    total,
                    pool: parts.into_pool(),
                }
            }
        }
    }

    /// What a piece gave that ended so, after its last addition.
    fn close(self, ended: Ended, children: &mut Vec<H>) -> Finished<T>
        ensures piece { IfOk result.outcome (λ o. (reported : _) → IsEnded reported ended →
            IsPieceOf (⟦<PieceRecorder<T, H> as Tally>⟧.kept self) reported
            (⟦<PieceRecorder<T, H> as Tally>⟧.state self) (T.added result.total)
            (T.last result.total) children.old.items children.new.items o) }
        ensures refused { OnErr result.outcome (children.new.items ≡ children.old.items) }
        ensures kept { T.kept result.total
            ≡ (⟦<PieceRecorder<T, H> as Tally>⟧.kept self).total }
        ensures most { T.most result.total
            ≡ (⟦<PieceRecorder<T, H> as Tally>⟧.kept self).most }
        ensures blocks { IfOk result.outcome (λ o.
            (⟦<PieceRecorder<T, H> as Tally>⟧.kept self).free
            ≤ part_blocks o.parts.items + result.pool) }
        ensures free { OnErr result.outcome
            ((⟦<PieceRecorder<T, H> as Tally>⟧.kept self).free ≤ result.pool) }
    {
        let PieceRecorder {
            parts,
            left,
            limits,
            mut total,
            unpaid,
            ..
        } = self;
        let Left { parts, pool } = parts.finish(children);
        match parts {
            Ok(parts) => {
                let ended = settle(&mut total, unpaid, ended);
                let ticks = limits.ticks - left;
                let outcome = Ok(Outcome {
                    parts,
                    ended,
                    ticks,
                });
                Finished {
                    outcome,
                    total,
                    pool,
                }
            }
            Err(refused) => Finished {
                outcome: Err(refused),
                total,
                pool,
            },
        }
    }
}
