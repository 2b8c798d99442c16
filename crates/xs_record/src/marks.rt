//! A store of marks: it keeps what it is given, and knows no limit.
ghost use Rattle.std.specs.Prelude.{◌≡◌, ◌+◌, ◌≤◌, ◌++◌, ◌∷◌, [], reverse};
ghost use Rattle.std.specs.Prelude.{OnOk, OnErr, IfOk};
ghost use Rattle.xs_trace.specs.Mark.{ticks};
ghost use Rattle.xs_trace.specs.State.{top, below};
ghost use Rattle.xs_trace.specs.Kept.{marks_of, item_marks, IsPacked, IsSingle};
ghost use Rattle.xs_record.specs.Store.{Held, empty, counted, marked, is_open, with_captures};
ghost use Rattle.xs_record.specs.Store.{put_into, reported_nothing, TakesRun};

use crate::log::ItemLog;
use crate::segment::Run;
use std::alloc::{AllocError, Global};
use std::marker::{Model, PhantomData};
use xs_trace::event::{Event, Fragment};
use xs_trace::item::{Item, Site};

/// What was recorded, in order, and the captures that are open. `T` is what fills the holes of the
/// traces.
#[derive(Drop)]
pub(crate) struct Marks<R: ItemLog, T> {
    alloc: Global,
    // What was recorded, except the last ticks.
    log: R,
    // The open captures, the one that was opened last at the end.
    captures: Vec<Fragment>,
    // The place of the last tick, and how many ticks there no item holds yet.
    at: Site,
    run: u64,
    of: PhantomData<T>,
}

impl<R: ItemLog, T> Model for Marks<R, T> {
    ghost Value = { Held T };

    ghost view = { λ m. record {
      store = record {
        reported = marks_of (R.items m.log) ++ ticks m.at m.run [];
        captures = reverse m.captures.items;
        at = m.at;
      };
      blocks = R.blocks m.log;
    } };

    ghost invariant = { λ m. TakesRun (R.items m.log) m.at m.run };
}

impl<R: ItemLog, T> Marks<R, T> {
    /// Nothing was recorded yet, in an empty log.
    pub(crate) fn new(alloc: Global, log: R) -> Marks<R, T>
        requires empty { R.items log ≡ [] }
        ensures empty { result.store ≡ empty }
        ensures blocks { result.blocks ≡ R.blocks log }
    {
        Marks {
            alloc,
            log,
            captures: Vec::new(alloc),
            at: Site { module: 0, line: 0 },
            run: 0,
            of: PhantomData,
        }
    }

    /// The place of the last tick.
    pub(crate) fn at(&self) -> Site
        ensures at { result ≡ self.now.store.at }
    {
        self.at
    }

    /// Whether a capture is open.
    #[inline(always)]
    pub(crate) fn is_capturing(&self) -> bool
        ensures open { result ≡ is_open self.now.store.captures }
    {
        !self.captures.is_empty()
    }

    /// Some ticks more. There is no room for 2^64 of them in one run.
    pub(crate) fn count(&mut self, site: Site, count: u64) -> Result<(), AllocError>
        ensures reported { OnOk result (self.new.store ≡ counted site count self.old.store) }
        ensures blocks { self.old.blocks ≤ self.new.blocks }
    {
        if count == 0 {
            return Ok(());
        }
        if site == self.at {
            match self.run.checked_add(count) {
                Some(sum) => self.run = sum,
                None => return Err(AllocError),
            }
            return Ok(());
        }
        let run = Run {
            site: self.at,
            ticks: self.run,
        };
        self.log.push_run(run)?;
        self.at = site;
        self.run = count;
        Ok(())
    }

    /// An event, to the innermost capture or else among the marks.
    #[inline(always)]
    pub(crate) fn put(&mut self, event: Event) -> Result<(), AllocError>
        ensures reported { OnOk result
            (self.new.store ≡ put_into self.old.store.captures event self.old.store) }
        ensures blocks { self.old.blocks ≤ self.new.blocks }
    {
        match self.captures.pop() {
            Some(mut inner) => {
                inner.push(event)?;
                self.captures.push(inner)?;
                Ok(())
            }
            None => self.push(Item::Put(event)),
        }
    }

    /// An item that is no run of ticks.
    #[inline(always)]
    pub(crate) fn push(&mut self, item: Item) -> Result<(), AllocError>
        requires single { IsSingle item }
        ensures reported { OnOk result (self.new.store ≡ marked (item_marks item) self.old.store) }
        ensures blocks { self.old.blocks ≤ self.new.blocks }
    {
        let run = Run {
            site: self.at,
            ticks: self.run,
        };
        self.log.push(run, item)?;
        self.run = 0;
        Ok(())
    }

    /// A capture is opened.
    pub(crate) fn open(&mut self) -> Result<(), AllocError>
        ensures reported { OnOk result
            (self.new.store ≡ with_captures ([] ∷ self.old.store.captures) self.old.store) }
        ensures blocks { self.new.blocks ≡ self.old.blocks }
    {
        self.captures.push(Fragment::of(Vec::new(self.alloc)))?;
        Ok(())
    }

    /// The innermost capture is closed.
    pub(crate) fn close(&mut self) -> Fragment
        ensures events { result ≡ top self.old.store.captures }
        ensures rest { self.new.store
            ≡ with_captures (below self.old.store.captures) self.old.store }
        ensures blocks { self.new.blocks ≡ self.old.blocks }
    {
        match self.captures.pop() {
            Some(fragment) => fragment,
            None => Fragment::of(Vec::new(self.alloc)),
        }
    }

    /// What was recorded, in the fewest items; from here on nothing was.
    pub(crate) fn take(&mut self) -> Result<R::Taken, AllocError>
        ensures items { IfOk result (λ taken.
            marks_of (R.taken_items taken) ≡ self.old.store.reported) }
        ensures packed { IfOk result (λ taken. IsPacked (R.taken_items taken)) }
        ensures rest { OnOk result (self.new.store ≡ reported_nothing self.old.store) }
        ensures blocks { IfOk result (λ taken.
            self.old.blocks ≤ self.new.blocks + R.taken_blocks taken) }
        ensures refused { OnErr result (self.old.blocks ≤ self.new.blocks) }
    {
        let run = Run {
            site: self.at,
            ticks: self.run,
        };
        let taken = self.log.take(run)?;
        self.run = 0;
        Ok(taken)
    }

    /// The log, with what lies in it.
    pub(crate) fn into_log(self) -> R
        ensures blocks { R.blocks result ≡ self.blocks }
    {
        let Marks { log, .. } = self;
        log
    }
}
