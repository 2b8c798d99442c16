//! A store of events and messages: of ticks it keeps the last place alone, and it knows no limit.
ghost use Rattle.std.specs.List.{All};
ghost use Rattle.std.specs.Prelude.{◌≡◌, ◌∷◌, [], reverse, OnOk, OnErr};
ghost use Rattle.xs_trace.specs.State.{top, below};
ghost use Rattle.xs_trace.specs.Kept.{marks_of, item_marks, IsSingle};
ghost use Rattle.xs_record.specs.Store.{Store, empty, stood, at_ticks, marked, is_open};
ghost use Rattle.xs_record.specs.Store.{with_captures, put_into};

use std::alloc::{AllocError, Global};
use std::marker::{Model, PhantomData};
use xs_trace::event::{Event, Fragment};
use xs_trace::item::{Item, Site};

/// What was recorded except ticks, in order, and the captures that are open. `T` is what fills the
/// holes of the traces.
#[derive(Drop)]
pub struct Plain<T> {
    alloc: Global,
    items: Vec<Item>,
    // The open captures, the one that was opened last at the end.
    captures: Vec<Fragment>,
    // The place of the last tick.
    at: Site,
    of: PhantomData<T>,
}

impl<T> Model for Plain<T> {
    ghost Value = { Store T };

    ghost view = { λ m. record {
      reported = marks_of m.items.items;
      captures = reverse m.captures.items;
      at = m.at;
    } };

    ghost invariant = { λ m. All IsSingle m.items.items };
}

impl<T> Plain<T> {
    /// Nothing was recorded yet.
    pub fn new(alloc: Global) -> Plain<T>
        ensures empty { result ≡ empty }
    {
        Plain {
            alloc,
            items: Vec::new(alloc),
            captures: Vec::new(alloc),
            at: Site { module: 0, line: 0 },
            of: PhantomData,
        }
    }

    /// The place of the last tick.
    pub fn at(&self) -> Site
        ensures at { result ≡ self.now.at }
    {
        self.at
    }

    /// Whether a capture is open.
    pub fn is_capturing(&self) -> bool
        ensures open { result ≡ is_open self.now.captures }
    {
        !self.captures.is_empty()
    }

    /// Some ticks more.
    pub fn stand(&mut self, site: Site, count: u64)
        ensures stood { self.new ≡ stood site count self.old }
    {
        self.at = last_place(site, count, self.at);
    }

    /// An event, to the innermost capture or else after what was recorded.
    pub fn put(&mut self, event: Event) -> Result<(), AllocError>
        ensures reported { OnOk result (self.new ≡ put_into self.old.captures event self.old) }
        ensures refused { OnErr result
            ((self.new.reported ≡ self.old.reported) × (self.new.at ≡ self.old.at)) }
    {
        match self.captures.pop() {
            Some(mut inner) => {
                inner.push(event)?;
                self.captures.push(inner)?;
                Ok(())
            }
            None => self.push(Item::Put(event)),
        }
    }

    /// An item that is no run of ticks.
    pub fn push(&mut self, item: Item) -> Result<(), AllocError>
        requires single { IsSingle item }
        ensures reported { OnOk result (self.new ≡ marked (item_marks item) self.old) }
        ensures refused { OnErr result
            ((self.new.reported ≡ self.old.reported) × (self.new.at ≡ self.old.at)) }
    {
        self.items.push(item)?;
        Ok(())
    }

    /// A capture is opened.
    pub fn open(&mut self) -> Result<(), AllocError>
        ensures reported { OnOk result
            (self.new ≡ with_captures ([] ∷ self.old.captures) self.old) }
        ensures refused { OnErr result
            ((self.new.reported ≡ self.old.reported) × (self.new.at ≡ self.old.at)) }
    {
        self.captures.push(Fragment::of(Vec::new(self.alloc)))?;
        Ok(())
    }

    /// The innermost capture is closed.
    pub fn close(&mut self) -> Fragment
        ensures events { result ≡ top self.old.captures }
        ensures rest { self.new ≡ with_captures (below self.old.captures) self.old }
    {
        match self.captures.pop() {
            Some(fragment) => fragment,
            None => Fragment::of(Vec::new(self.alloc)),
        }
    }

    /// What was recorded, in items that are no runs of ticks.
    pub fn finish(self) -> Vec<Item>
        ensures items { marks_of result.items ≡ self.reported }
        ensures single { All IsSingle result.items }
    {
        let Plain { items, .. } = self;
        items
    }
}

/// Where one stands after some ticks at a place.
#[tactic(auto, using(crate::proofs::BriefLemmas::at_moved, crate::proofs::BriefLemmas::at_still))]
fn last_place(site: Site, count: u64, at: Site) -> Site
    ensures { result ≡ at_ticks count site at }
{
    if count > 0 { site } else { at }
}
