//! A table of ticks by module and line, and what it has, in order.

ghost use Rattle.std.specs.Prelude.{◌≡◌, ◌+◌, ◌==◌, ◌<◌, [], ℕ, cond, get_or, length, IfOk, OnOk};
ghost use Rattle.std.specs.Vec.{vec_len};
ghost use Rattle.xs_block.specs.Chain as chain;
ghost use Rattle.xs_profile.specs.Counts.{is_site, ticks_at};
ghost use Rattle.xs_profile.specs.Sites.{sites_in};
ghost use Rattle.xs_profile.specs.steps.Runs.{run_sites};
ghost use Rattle.xs_profile.specs.steps.Table.{AreBefore, AreCounts, AreInOrder};
ghost use Rattle.xs_profile.specs.steps.Table.{table_ticks, ticks_of};
ghost use Rattle.xs_record.specs.Segment.{items_of};
ghost use Rattle.xs_trace.specs.declared.item.Site.{Site};

use crate::count::Count;
use crate::runs::runs_of;
use std::alloc::{AllocError, Global};
use xs_block::chain::Chain;
use xs_record::segment::{Run, Segment};
use xs_trace::item::Site;

/// How many ticks each line of each module has, up to the last that has one.
#[derive(Drop)]
pub(crate) struct Table {
    alloc: Global,
    modules: Vec<Vec<u64>>,
}

/// The ticks of some items. It goes through them once.
pub(crate) fn table_of(alloc: Global, items: &Chain<Segment>) -> Result<Table, AllocError>
    ensures { IfOk result (λ table. (s : Site)
        → table_ticks table.modules.items s ≡ ticks_at (sites_in (items_of items.now)) s) }
{
    let mut table = Table::new(alloc);
    for segment in items.items() {
        table.add_segment(segment)?;
    }
    Ok(table)
}

impl Table {
    /// Without ticks. It takes no memory.
    pub(crate) fn new(alloc: Global) -> Table
        ensures { result.modules.items ≡ [] }
    {
        Table {
            alloc,
            modules: Vec::new(alloc),
        }
    }

    /// Adds the ticks of a segment.
    #[inline(always)]
    fn add_segment(&mut self, segment: &Segment) -> Result<(), AllocError>
        ensures { OnOk result ((s : Site) → table_ticks self.new.modules.items s
            ≡ table_ticks self.old.modules.items s + ticks_at (sites_in segment.now) s) }
    {
        let runs = runs_of(segment);
        self.add_run(runs.first)?;
        self.add_run(runs.last)?;
        self.add_run(runs.own)
    }

    /// Adds ticks at a place, if there are any.
    #[inline(always)]
    fn add_run(&mut self, run: Run) -> Result<(), AllocError>
        ensures { OnOk result ((s : Site) → table_ticks self.new.modules.items s
            ≡ table_ticks self.old.modules.items s + ticks_at (run_sites run) s) }
    {
        if run.ticks == 0 {
            return Ok(());
        }
        self.add(run.site, run.ticks)
    }

    /// Adds ticks at a place. More than 2^64 - 1 of them are out of memory.
    #[inline(always)]
    pub(crate) fn add(&mut self, site: Site, ticks: u64) -> Result<(), AllocError>
        ensures { OnOk result ((s : Site) → table_ticks self.new.modules.items s
            ≡ table_ticks self.old.modules.items s + cond (is_site s site) ticks 0) }
    {
        let module = site.module as usize;
        if self.modules.len() <= module {
            self.reach(module)?;
        }
        add_at(&mut self.modules[module], site.line as usize, ticks)
    }

    /// Makes modules without ticks, up to this one.
    #[inline(never)]
    fn reach(&mut self, number: usize) -> Result<(), AllocError>
        ensures kept { OnOk result ((s : Site) → table_ticks self.new.modules.items s
            ≡ table_ticks self.old.modules.items s) }
        ensures there { OnOk result (number < vec_len self.new.modules) }
    {
        while self.modules.len() <= number {
            self.modules.push(Vec::new(self.alloc))?;
        }
        Ok(())
    }

    /// The places that have ticks, in order.
    pub(crate) fn counts(&self) -> Result<Vec<Count>, AllocError>
        ensures { IfOk result (λ counts. AreCounts (table_ticks self.now.modules.items)
            counts.items) }
    {
        let mut counts = Vec::new(self.alloc);
        let mut number = 0;
        for lines in self.modules.as_slice() {
            add_counts(&mut counts, number, lines.as_slice())?;
            number = after(number)?;
        }
        Ok(counts)
    }
}

/// Adds ticks at a line.
#[inline(always)]
fn add_at(lines: &mut Vec<u64>, line: usize, ticks: u64) -> Result<(), AllocError>
    ensures { OnOk result ((n : ℕ) → get_or lines.new.items n 0
        ≡ get_or lines.old.items n 0 + cond (n == line) ticks 0) }
{
    if lines.len() <= line {
        reach_line(lines, line)?;
    }
    lines[line] = lines[line].checked_add(ticks).ok_or(AllocError)?;
    Ok(())
}

/// Makes lines without ticks, up to this one.
#[inline(never)]
fn reach_line(lines: &mut Vec<u64>, line: usize) -> Result<(), AllocError>
    ensures kept { OnOk result ((n : ℕ) → get_or lines.new.items n 0
        ≡ get_or lines.old.items n 0) }
    ensures there { OnOk result (line < vec_len lines.new) }
{
    while lines.len() <= line {
        lines.push(0)?;
    }
    Ok(())
}

/// Adds the lines of the module of a number that have ticks, which come after what is there.
fn add_counts(counts: &mut Vec<Count>, number: u32, lines: &[u64]) -> Result<(), AllocError>
    requires before { AreBefore counts.old.items (record { «module» = number; line = 0 }) }
    requires in_order { AreInOrder counts.old.items }
    ensures in_order { OnOk result (AreInOrder counts.new.items) }
    ensures before { OnOk result ((n : ℕ) → number < n
        → AreBefore counts.new.items (record { «module» = n; line = 0 })) }
    ensures each { OnOk result ((s : Site) → ticks_of counts.new.items s
        ≡ ticks_of counts.old.items s
        + cond (s.«module» == number) (get_or lines.now s.line 0) 0) }
{
    let mut line = 0;
    for ticks in lines {
        let site = Site {
            module: number,
            line,
        };
        add_count(counts, site, *ticks)?;
        line = after(line)?;
    }
    Ok(())
}

/// Adds a place that comes after what is there, if it has ticks.
fn add_count(counts: &mut Vec<Count>, site: Site, ticks: u64) -> Result<(), AllocError>
    requires before { AreBefore counts.old.items site }
    requires in_order { AreInOrder counts.old.items }
    ensures in_order { OnOk result (AreInOrder counts.new.items) }
    ensures before { OnOk result (AreBefore counts.new.items
        (record site { line = site.line + 1 })) }
    ensures each { OnOk result ((s : Site) → ticks_of counts.new.items s
        ≡ ticks_of counts.old.items s + cond (is_site s site) ticks 0) }
{
    if ticks == 0 {
        return Ok(());
    }
    counts.push(Count { site, ticks })?;
    Ok(())
}

/// The number after this one. A table with that many lines or modules is out of memory.
fn after(number: u32) -> Result<u32, AllocError>
    ensures { IfOk result (λ next. next ≡ number + 1) }
{
    number.checked_add(1).ok_or(AllocError)
}
