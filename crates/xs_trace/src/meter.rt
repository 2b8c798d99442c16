//! A tally that counts ticks, up to a limit if it has one.
ghost use Rattle.std.specs.Prelude.{◌≡◌};
ghost use Rattle.xs_trace.specs.Play.{IsStep, ticked};
ghost use Rattle.xs_trace.specs.Meter.{HasMemory, MeterLaw, Stock, metered, stock};

use crate::item::Site;
use crate::recorder::{Halt, Tally};
use std::convert::Infallible;

/// Counts the ticks of what has a limit. Without one it counts nothing, and ends no run.
#[derive(Clone, Copy, Debug)]
pub struct Meter {
    /// The most ticks, if there is a limit.
    pub limit: Option<u64>,
    /// The ticks so far, where there is one.
    pub spent: u64,
}

impl Tally for Meter {
    type Task = Infallible;

    ghost Kept = { Stock };

    ghost kept = { stock };

    ghost state = { metered };

    /// One more spent, up to the limit. It takes no memory.
    fn tick(&mut self, site: Site) -> Result<(), Halt>
        ensures reported { IsStep (ticked site (⟦<Meter as Tally>⟧.state self.old))
            result (⟦<Meter as Tally>⟧.state self.new) }
        ensures kept { stock self.new ≡ stock self.old }
        ensures memory { HasMemory result }
    {
        if let Some(limit) = self.limit {
            if self.spent >= limit {
                return Err(Halt::Spent(site));
            }
            self.spent += 1;
        }
        Ok(())
    }
}

/// After a run of that cost, the ticks spent have risen by it, where there is a limit. Without one
/// the meter ends no run.
pub fn meter_law<H, A, B>()
    ensures { MeterLaw H A B }
{}
