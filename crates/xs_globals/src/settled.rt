//! What settling the globals comes to, and the table on the way there.

ghost use Rattle.std.specs.Prelude.{◌≡◌, ◌↔◌, [], slice_get, None, Some, true};
ghost use Rattle.std.specs.Prelude.{IfOk, OnOk, IsTrue};
ghost use Rattle.xs_globals.specs.Results.{settled_by, settled_of};
ghost use Rattle.xs_globals.specs.steps.Settling.{IsNeed, table_of};
ghost use Rattle.xs_body_spec.specs.Globals.{added, once_more, valued};

use std::alloc::{AllocError, Global};
use xs_text::TextBuf;
use xs_trace::fault::Fault;
use xs_trace::item::{Site, Spot};
use xs_value::value::Value;

/// The values of the globals so far, what was said and taken for them, and attempts at them.
#[derive(Drop)]
pub struct Table {
    /// Their values.
    pub values: Vec<Option<Value>>,
    /// What was said, in order.
    pub says: Vec<TextBuf>,
    /// How many ticks were taken.
    pub ticks: u64,
    /// How many attempts were thrown away.
    pub thrown: u64,
    /// Of which of them an attempt was begun.
    pub begun: Vec<bool>,
}

/// What settling the globals comes to.
#[derive(Drop)]
pub struct Settled {
    /// Their values; all of them where there is no end.
    pub values: Vec<Option<Value>>,
    /// What was said, in order.
    pub says: Vec<TextBuf>,
    /// How many ticks were taken.
    pub ticks: u64,
    /// How many attempts were thrown away.
    pub thrown: u64,
    /// Where the run ended meanwhile, if it did.
    pub end: Option<Spot>,
}

/// What an attempt at a global comes to, among those under attempt.
#[derive(Drop)]
pub enum Turn {
    /// It has its value.
    Done,
    /// The run has ended.
    Ends(Spot),
    /// Another global is to be settled first.
    Needs(u32),
}

impl Table {
    /// Nothing was said or taken yet.
    pub(crate) fn with(alloc: Global, values: Vec<Option<Value>>, begun: Vec<bool>) -> Table
        ensures table { table_of result
            ≡ record { values = values.items; says = []; ticks = 0; thrown = 0 } }
        ensures begun { result.begun.items ≡ begun.items }
    {
        Table {
            values,
            says: Vec::new(alloc),
            ticks: 0,
            thrown: 0,
            begun,
        }
    }

    /// Adds what an attempt said and took.
    pub(crate) fn add(&mut self, mut says: Vec<TextBuf>, ticks: u64) -> Result<(), AllocError>
        ensures added { OnOk result
            (table_of self.new ≡ added says.items ticks (table_of self.old)) }
        ensures begun { OnOk result (self.new.begun.items ≡ self.old.begun.items) }
    {
        self.says.append(&mut says)?;
        self.ticks = self.ticks.checked_add(ticks).ok_or(AllocError)?;
        Ok(())
    }

    /// Keeps the value of a global.
    pub(crate) fn fill(&mut self, global: u32, value: Value)
        ensures value { table_of self.new ≡ valued global value (table_of self.old) }
        ensures begun { self.new.begun.items ≡ self.old.begun.items }
    {
        if (global as usize) < self.values.len() {
            self.values[global as usize] = Some(value);
        }
    }

    /// Throws an attempt away.
    pub(crate) fn throw(&mut self) -> Result<(), AllocError>
        ensures thrown { OnOk result (table_of self.new ≡ once_more (table_of self.old)) }
        ensures begun { OnOk result (self.new.begun.items ≡ self.old.begun.items) }
    {
        self.thrown = self.thrown.checked_add(1).ok_or(AllocError)?;
        Ok(())
    }

    /// An attempt needs another global: if an attempt at that was begun, the run has ended; and
    /// else nothing is left of this one.
    pub(crate) fn need(
        &mut self,
        other: u32,
        site: Site,
        says: Vec<TextBuf>,
        ticks: u64,
    ) -> Result<Turn, AllocError>
        ensures turn { IfOk result (IsNeed self.old.begun.items other site says.items ticks
            (table_of self.old) (table_of self.new)) }
        ensures values { OnOk result (self.new.values.items ≡ self.old.values.items) }
        ensures begun { OnOk result (self.new.begun.items ≡ self.old.begun.items) }
    {
        if self.is_begun(other) {
            self.add(says, ticks)?;
            Ok(Turn::Ends(Spot {
                fault: Fault::Circular,
                module: site.module,
                line: site.line,
            }))
        } else {
            self.throw()?;
            Ok(Turn::Needs(other))
        }
    }

    /// Whether a global is there without a value.
    pub(crate) fn lacks(&self, global: u32) -> bool
        ensures { IsTrue result ↔ (slice_get self.now.values.items global ≡ Some None) }
    {
        matches!(self.values.get(global as usize), Some(None))
    }

    /// Whether an attempt at a global was begun.
    fn is_begun(&self, global: u32) -> bool
        ensures { IsTrue result ↔ (slice_get self.now.begun.items global ≡ Some true) }
    {
        matches!(self.begun.get(global as usize), Some(true))
    }

    /// What settling comes to, by where it ended.
    pub(crate) fn ended(self, end: Option<Spot>) -> Settled
        ensures settled { settled_of result ≡ settled_by end (table_of self) }
        ensures values { result.values.items ≡ self.values.items }
        ensures ticks { result.ticks ≡ self.ticks }
        ensures thrown { result.thrown ≡ self.thrown }
        ensures end { result.end ≡ end }
    {
        Settled {
            values: self.values,
            says: self.says,
            ticks: self.ticks,
            thrown: self.thrown,
            end,
        }
    }
}
