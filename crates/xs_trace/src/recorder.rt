//! What a run reports of its work, step by step, and how it may be ended.
ghost use Rattle.std.specs.Prelude.{◌≡◌, true, Bool};
ghost use Rattle.xs_trace.specs.State.{State, said, opened, popped, top, shown};
ghost use Rattle.xs_trace.specs.Mark.{Hole};
ghost use Rattle.xs_trace.specs.Play.{IsStep, ticked, ticked_by, put, put_at, said_at, goes};
ghost use Rattle.xs_trace.specs.declared.recorder.Halt.TheVariants.{NoMemory};

use crate::event::{Event, Fragment, text_ticks};
use crate::fault::Fault;
use crate::item::Site;
use std::alloc::{AllocError, AllocFailed};
use xs_text::TextBuf;

/// How a run ends that does not finish.
#[derive(Clone, Copy, PartialEq, Eq, Debug)]
pub enum Halt {
    /// In a fault, at an instruction.
    Fault(Fault, Site),
    /// At an instruction that needs a global variable, by its number, that has no value yet.
    Needs(u32, Site),
    /// At a tick past the limit.
    Spent(Site),
    /// At an event past the limit; the place is that of the last tick.
    Full(Site),
    /// A total that its recorder shares with others went above the most that it may come to.
    Over { total: u64 },
    /// There was no memory.
    NoMemory,
}

impl From<AllocError> for Halt {
    ghost from_gives = { λ _ e. e ≡ NoMemory };

    /// Out of memory.
    fn from(_e: AllocError) -> Halt {
        Halt::NoMemory
    }
}

impl<T: Drop> From<AllocFailed<T>> for Halt {
    ghost from_gives = { λ _ e. e ≡ NoMemory };

    /// Out of memory; what there was no room for is dropped.
    fn from(_e: AllocFailed<T>) -> Halt {
        Halt::NoMemory
    }
}

/// Gets each tick, and may end the run.
pub trait Tally {
    /// What fills a hole.
    type Task;

    /// What no call changes, whatever it answers.
    ghost Kept: { Type 0 };

    /// That, of this one.
    ghost kept: { Self → Self.Kept };

    /// What was recorded, what is left of its limits, and the total that it shares.
    ghost state: { Self → State Self.Task };

    /// One tick at an instruction.
    fn tick(&mut self, site: Site) -> Result<(), Halt>
        ensures reported { IsStep (ticked site (state self.old)) result (state self.new) }
        ensures kept { kept self.new ≡ kept self.old };
}

/// Records what a run does, in order, and may end it.
pub trait Recorder: Tally {
    /// Whether it takes holes.
    ghost takes_holes: { Bool };

    /// Several ticks at one instruction; where fewer are left, those, and then the end.
    fn ticks(&mut self, site: Site, count: u64) -> Result<(), Halt>
        ensures reported { IsStep (ticked_by count site (Self.state self.old))
            result (Self.state self.new) }
        ensures kept { Self.kept self.new ≡ Self.kept self.old };

    /// An event, to the capture that was opened last of those still open, or else to the result.
    fn put(&mut self, event: Event) -> Result<(), Halt>
        ensures reported { IsStep (put event (Self.state self.old)) result (Self.state self.new) }
        ensures kept { Self.kept self.new ≡ Self.kept self.old };

    /// A message for the user.
    fn say(&mut self, text: TextBuf) -> Result<(), Halt>
        ensures reported { IsStep (goes (said text (Self.state self.old)))
            result (Self.state self.new) }
        ensures kept { Self.kept self.new ≡ Self.kept self.old };

    /// A part that is evaluated apart, by the task that fills it.
    fn hole(&mut self, task: Self::Task) -> Result<(), Halt>
        requires takes { takes_holes ≡ true }
        ensures reported { IsStep (goes (shown (Hole task) (Self.state self.old)))
            result (Self.state self.new) }
        ensures kept { Self.kept self.new ≡ Self.kept self.old };

    /// From here on what is put makes a fragment of its own.
    fn open_capture(&mut self) -> Result<(), Halt>
        ensures reported { IsStep (goes (opened (Self.state self.old))) result
            (Self.state self.new) }
        ensures kept { Self.kept self.new ≡ Self.kept self.old };

    /// What was put since the last capture that is still open; that capture is closed. It is empty
    /// where none is open.
    fn close_capture(&mut self) -> Fragment
        ensures events { result ≡ top (Self.state self.old).captures }
        ensures rest { Self.state self.new ≡ popped (Self.state self.old) }
        ensures kept { Self.kept self.new ≡ Self.kept self.old };
}

/// Some ticks at one instruction, one by one.
#[inline(always)]
pub fn tick_several<T: Tally>(tally: &mut T, site: Site, count: u64) -> Result<(), Halt>
    ensures reported { IsStep (ticked_by count site (T.state tally.old)) result
        (T.state tally.new) }
    ensures kept { T.kept tally.new ≡ T.kept tally.old }
{
    for _ in 0..count {
        tally.tick(site)?;
    }
    Ok(())
}

/// Puts an event at an instruction, after the ticks for its text.
pub fn put_event<R: Recorder>(recorder: &mut R, site: Site, event: Event) -> Result<(), Halt>
    ensures reported { IsStep (put_at site event (R.state recorder.old)) result
        (R.state recorder.new) }
    ensures kept { R.kept recorder.new ≡ R.kept recorder.old }
{
    recorder.ticks(site, text_ticks(&event))?;
    recorder.put(event)
}

/// Says a message at an instruction, after the ticks for its text.
pub fn say_message<R: Recorder>(recorder: &mut R, site: Site, text: TextBuf) -> Result<(), Halt>
    ensures reported { IsStep (said_at site text (R.state recorder.old)) result
        (R.state recorder.new) }
    ensures kept { R.kept recorder.new ≡ R.kept recorder.old }
{
    recorder.ticks(site, (text.as_str().len() / 256) as u64)?;
    recorder.say(text)
}
