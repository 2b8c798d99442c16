//! Segments: the items of a run, with few ticks beside the item after them.
ghost use Rattle.std.specs.Prelude.{◌≡◌, ◌<◌, ◌++◌, ◌∷◌, [], IsTrue};
ghost use Rattle.xs_record.specs.Segment.{AreBeside, IsSmall, content_items, run_items};

use std::marker::Model;
use std::mem::size_of;
use xs_trace::item::{Item, Site};

/// Some ticks at one place, or none.
#[derive(Clone, Copy, Debug)]
pub struct Run {
    pub site: Site,
    pub ticks: u64,
}

/// A segment of a run: an item, and before it few ticks at up to two lines of one module. Contracts
/// see its items, in order.
///
/// Most events come after a tick or two. So a segment takes less memory than three items.
#[derive(Debug, Drop)]
pub struct Segment {
    module: u16,
    first_line: u16,
    line: u16,
    first_ticks: u8,
    ticks: u8,
    item: Item,
}

impl Model for Segment {
    ghost use Rattle.std.specs.Prelude.{◌++◌, ◌∷◌, [], List};
    ghost use Rattle.xs_record.specs.Store.{pending};
    ghost use Rattle.xs_trace.specs.declared.item.Item.{Item};

    ghost Value = { List Item };

    ghost view = { λ s.
        pending (record { «module» = s.«module»; line = s.first_line }) s.first_ticks
        ++ (pending (record { «module» = s.«module»; line = s.line }) s.ticks ++ s.item ∷ []) };
}

// A large run keeps one for each of its events.
const _: () = prove!(size_of::<Segment>() <= 40);

/// What is in a segment: ticks at up to two places, and the item after them.
#[derive(Clone, Copy, Debug)]
pub struct Content<'a> {
    pub first: Run,
    pub last: Run,
    pub item: &'a Item,
}

impl Run {
    /// No ticks.
    pub(crate) fn none() -> Run
        ensures none { run_items result ≡ [] }
    {
        Run {
            site: Site { module: 0, line: 0 },
            ticks: 0,
        }
    }

    /// It as an item.
    #[inline(always)]
    pub(crate) fn item(self) -> Item
        requires some { 0 < self.ticks }
        ensures item { result ∷ [] ≡ run_items self }
    {
        Item::Run {
            module: self.site.module,
            line: self.site.line,
            ticks: self.ticks,
        }
    }

    /// Whether a segment has room for it before an item.
    #[inline(always)]
    fn is_small(self) -> bool
        ensures small { IsTrue result → IsSmall self }
    {
        self.ticks < 256 && self.site.module < 65536 && self.site.line < 65536
    }

    /// Whether a segment has room for it and another one before an item.
    #[inline(always)]
    pub(crate) fn is_beside(self, last: Run) -> bool
        ensures beside { IsTrue result → AreBeside self last }
    {
        self.site.module == last.site.module && self.is_small() && last.is_small()
    }
}

impl Segment {
    /// An item.
    pub fn of(item: Item) -> Segment
        ensures items { result ≡ item ∷ [] }
    {
        Segment {
            module: 0,
            first_line: 0,
            line: 0,
            first_ticks: 0,
            ticks: 0,
            item,
        }
    }

    /// Some ticks.
    pub fn of_ticks(run: Run) -> Segment
        requires some { 0 < run.ticks }
        ensures items { result ≡ run_items run }
    {
        Segment::of(run.item())
    }

    /// An item after few ticks in one module.
    #[inline(always)]
    pub(crate) fn after_ticks(first: Run, last: Run, item: Item) -> Segment
        requires beside { AreBeside first last }
        ensures items { result ≡ run_items first ++ (run_items last ++ item ∷ []) }
    {
        Segment {
            module: last.site.module as u16,
            first_line: first.site.line as u16,
            line: last.site.line as u16,
            first_ticks: first.ticks as u8,
            ticks: last.ticks as u8,
            item,
        }
    }

    /// What is in it.
    #[inline(always)]
    pub fn content(&self) -> Content<'_>
        ensures items { content_items result ≡ self.now }
    {
        let module = u32::from(self.module);
        Content {
            first: Run {
                site: Site {
                    module,
                    line: u32::from(self.first_line),
                },
                ticks: u64::from(self.first_ticks),
            },
            last: Run {
                site: Site {
                    module,
                    line: u32::from(self.line),
                },
                ticks: u64::from(self.ticks),
            },
            item: &self.item,
        }
    }
}
