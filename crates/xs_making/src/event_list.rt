//! A list of events as a recorder, without limits.
ghost use Rattle.std.specs.Prelude.{◌≡◌, [], Err, true};
ghost use Rattle.xs_trace.specs.declared.recorder.Halt.TheVariants.{NoMemory};
ghost use Rattle.xs_making.specs.steps.Listed.{listed};

use std::alloc::Global;
use xs_text::TextBuf;
use xs_trace::event::{Event, Fragment};
use xs_trace::item::Site;
use xs_trace::recorder::{Halt, Recorder, Tally, tick_several};

/// Keeps the events that it gets, and no ticks. There is no room for messages, holes and captures,
/// of which a copy has none.
#[derive(Drop)]
pub(crate) struct EventList {
    pub(crate) events: Vec<Event>,
}

impl EventList {
    /// No event was put yet.
    pub(crate) fn new(alloc: Global) -> EventList
        ensures { result.events.items ≡ [] }
    {
        EventList {
            events: Vec::new(alloc),
        }
    }
}

impl Tally for EventList {
    type Task = ();

    ghost Kept = { Unit {0} };

    ghost kept = { λ l. tt };

    ghost state = { λ l. listed l.events.items };

    /// There is no limit.
    fn tick(&mut self, _site: Site) -> Result<(), Halt> {
        Ok(())
    }
}

impl Recorder for EventList {
    ghost takes_holes = { true };

    /// One by one.
    fn ticks(&mut self, site: Site, count: u64) -> Result<(), Halt> {
        tick_several(self, site, count)
    }

    /// After the others.
    #[tactic(auto, using(crate::proofs::PutLemmas::listed_put))]
    fn put(&mut self, event: Event) -> Result<(), Halt> {
        self.events.push(event)?;
        Ok(())
    }

    /// There is no room for a message.
    fn say(&mut self, _text: TextBuf) -> Result<(), Halt>
        ensures refused { result ≡ Err NoMemory }
    {
        Err(Halt::NoMemory)
    }

    /// There is no room for a hole.
    fn hole(&mut self, _task: ()) -> Result<(), Halt>
        ensures refused { result ≡ Err NoMemory }
    {
        Err(Halt::NoMemory)
    }

    /// There is no room for a capture.
    fn open_capture(&mut self) -> Result<(), Halt>
        ensures refused { result ≡ Err NoMemory }
    {
        Err(Halt::NoMemory)
    }

    /// None is open.
    fn close_capture(&mut self) -> Fragment {
        Fragment::of(Vec::new(*self.events.allocator()))
    }
}
