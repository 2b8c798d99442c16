//! Items: what is kept of a run, and how a run ends.

use crate::event::Event;
use crate::fault::Fault;
use std::mem::size_of;
use xs_text::TextBuf;

/// Where an instruction stands: the number of its module, and its line there.
#[derive(Clone, Copy, PartialEq, Eq, Debug)]
pub struct Site {
    pub module: u32,
    pub line: u32,
}

/// A fault, and where it came.
#[derive(Clone, Copy, PartialEq, Eq, Debug)]
pub struct Spot {
    pub fault: Fault,
    pub module: u32,
    pub line: u32,
}

/// One thing that is kept of a run, or of a part of it.
#[derive(Debug, Drop)]
pub enum Item {
    /// That many ticks, one after another at one place.
    Run { module: u32, line: u32, ticks: u64 },
    /// An event for the result.
    Put(Event),
    /// A message for the user.
    Say(TextBuf),
}

// A loop keeps an item or two for each of its nodes, so what a large run keeps is what these take.
const _: () = prove!(size_of::<Item>() <= 32);

/// How a run ended.
#[derive(Clone, Copy, Debug)]
pub enum Ended {
    /// It ran to its end.
    Whole,
    /// It stopped in a fault.
    Fault(Spot),
    /// It would have taken more ticks than its limit; the spot is that of the first tick too many.
    Spent(Spot),
    /// It would have put more events than its limit; the spot is that of the last tick before the
    /// first event too many.
    Full(Spot),
    /// A total that it shares with other runs went above the limit; `total` is what it came to.
    Over { total: u64 },
}

/// The most that a run may take.
#[derive(Clone, Copy, PartialEq, Eq, Debug)]
pub struct Limits {
    /// How many ticks.
    pub ticks: u64,
    /// How many events outside captured content; none where there is no limit.
    pub events: Option<u64>,
}
