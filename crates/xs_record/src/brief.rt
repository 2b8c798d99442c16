//! A recorder that keeps no ticks but their number.
ghost use Rattle.std.specs.List.{All};
ghost use Rattle.std.specs.Prelude.{◌≡◌, [], Some, Err, false};
ghost use Rattle.xs_trace.specs.State.{alone, Untimed};
ghost use Rattle.xs_record.specs.Store.{briefly_to};
ghost use Rattle.xs_trace.specs.PlayLaws.{begun};
ghost use Rattle.xs_trace.specs.declared.recorder.Halt.TheVariants.{NoMemory};
ghost use Rattle.xs_trace.specs.Kept.{marks_of, IsSingle};

use crate::plain::Plain;
use crate::room::spend;
use std::alloc::Global;
use xs_text::TextBuf;
use xs_trace::event::{Event, Fragment};
use xs_trace::item::{Item, Limits, Site};
use xs_trace::recorder::{Halt, Recorder, Tally};

/// Keeps the events and messages that it gets, in order, up to its limits, and counts ticks: so
/// its memory is that of what it answers with, however long a run is. An attempt of a global
/// variable has one, since only its messages and the number of its ticks are asked for. It takes no
/// holes; `T` is what would fill them.
#[derive(Drop)]
pub struct Brief<T> {
    marks: Plain<T>,
    room: Option<u64>,
    left: u64,
}

impl<T: Drop> Tally for Brief<T> {
    type Task = T;

    ghost Kept = { Unit {0} };

    ghost kept = { λ b. tt };

    ghost state = { λ b. briefly_to b.room b.left alone b.marks };

    /// One tick, while some are left.
    #[tactic(auto, using(crate::proofs::BriefLemmas::brief_tick, crate::proofs::BriefLemmas::brief_spent))]
    fn tick(&mut self, site: Site) -> Result<(), Halt> {
        if self.left == 0 {
            return Err(Halt::Spent(site));
        }
        self.marks.stand(site, 1);
        self.left -= 1;
        Ok(())
    }
}

impl<T: Drop> Recorder for Brief<T> {
    ghost takes_holes = { false };

    /// All at once.
    #[tactic(auto, using(crate::proofs::BriefLemmas::brief_ticks, crate::proofs::BriefLemmas::brief_short))]
    fn ticks(&mut self, site: Site, count: u64) -> Result<(), Halt> {
        if count > self.left {
            self.marks.stand(site, self.left);
            self.left = 0;
            return Err(Halt::Spent(site));
        }
        self.marks.stand(site, count);
        self.left -= count;
        Ok(())
    }

    /// To the innermost capture, or to the result while there is room.
    #[tactic(auto, using(crate::proofs::BriefLemmas::brief_full, crate::proofs::BriefLemmas::brief_put, crate::proofs::BriefLemmas::brief_captured))]
    fn put(&mut self, event: Event) -> Result<(), Halt> {
        if self.marks.is_capturing() {
            self.marks.put(event)?;
            return Ok(());
        }
        if !spend(&mut self.room) {
            return Err(Halt::Full(self.marks.at()));
        }
        self.marks.put(event)?;
        Ok(())
    }

    /// After what was recorded.
    fn say(&mut self, text: TextBuf) -> Result<(), Halt> {
        self.marks.push(Item::Say(text))?;
        Ok(())
    }

    /// There is no room for a hole.
    fn hole(&mut self, _task: T) -> Result<(), Halt>
        ensures refused { result ≡ Err NoMemory }
    {
        Err(Halt::NoMemory)
    }

    /// One more is open.
    fn open_capture(&mut self) -> Result<(), Halt> {
        self.marks.open()?;
        Ok(())
    }

    /// One less is open.
    fn close_capture(&mut self) -> Fragment {
        self.marks.close()
    }
}

impl<T: Drop> Brief<T> {
    /// Nothing was recorded yet.
    pub fn new(alloc: Global, limits: Limits) -> Brief<T>
        ensures begins { ⟦<Brief<T> as Tally>⟧.state result
            ≡ begun (Untimed []) limits.ticks limits.events }
    {
        Brief {
            marks: Plain::new(alloc),
            room: limits.events,
            left: limits.ticks,
        }
    }

    /// How many ticks are left.
    pub fn left(&self) -> u64
        ensures left { Some result ≡ (⟦<Brief<T> as Tally>⟧.state self.now).left }
    {
        self.left
    }

    /// What was recorded, except ticks: no item is a run of them.
    pub fn finish(self) -> Vec<Item>
        ensures items { (⟦<Brief<T> as Tally>⟧.state self).reported
            ≡ Untimed (marks_of result.items) }
        ensures single { All IsSingle result.items }
    {
        self.marks.finish()
    }
}
