//! A runner over a table: each row is what a piece does itself, and names the rows of its children.

ghost use Rattle.std.specs.Prelude.{◌≡◌, ◌+◌, ◌<◌, ◌≤◌, ◌^◌, ◌∷◌, [], length, true, IfOk};
ghost use Rattle.std.specs.Prelude.{OnErr};
ghost use Rattle.xs_record.specs.Outcome.{part_blocks};
ghost use Rattle.xs_record.specs.Piece.{IsPiece};
ghost use Rattle.unit_tests.specs.Table.{child_of, entries_marks, entry_marks, number_after};
ghost use Rattle.unit_tests.specs.Table.{own_marks, whole_marks, IsTableReady};
ghost use Rattle.xs_trace.specs.Mark.{Hole};
ghost use Rattle.xs_trace.specs.Play.{IsStep, play};

use std::alloc::{AllocError, Global};
use std::mem::replace;
use xs_block::pool::Pool;
use xs_core::place::Place;
use xs_pieces::piece::{Desk, Ran};
use xs_pieces::runner::{PieceRunner, Runner};
use xs_record::outcome::Outcome;
use xs_record::piece::{Finished, PieceRecorder};
use xs_record::segment::Segment;
use xs_text::TextBuf;
use xs_trace::event::Event;
use xs_trace::fault::Fault;
use xs_trace::item::{Limits, Site};
use xs_trace::recorder::{Halt, Recorder};
use xs_trace::total::{LocalTotal, Total};

/// The most ticks of a whole run: 2^40.
const MOST_TICKS: u64 = 1_099_511_627_776;

/// One thing that a piece does.
#[derive(Drop)]
pub enum Entry {
    /// A tick at an instruction.
    Tick(Site),
    /// An event.
    Put(Event),
    /// A message.
    Say(TextBuf),
    /// A stop in a fault, at an instruction.
    Stop(Fault, Site),
    /// A hole for the row that comes after the next so many rows.
    Child(u32),
}

/// What a piece does itself: a tick at an instruction, and then its entries.
#[derive(Drop)]
pub struct Row {
    /// The instruction.
    pub site: Site,
    /// What follows the tick.
    pub entries: Vec<Entry>,
}

/// The task of a row, for the piece at a place. Where there is no such row, it is one tick.
#[derive(Drop)]
pub struct RowTask {
    /// Its place.
    pub place: Place,
    /// The index of its row.
    pub row: u64,
}

/// Runs the rows of a table.
#[derive(Drop)]
pub struct TableRunner {
    /// The rows.
    pub rows: Vec<Row>,
}

impl TableRunner {
    /// The task of the first row, at the root.
    pub fn root_task(&self, alloc: Global) -> RowTask
        ensures { result ≡ record { place = []; row = 0 } }
    {
        RowTask {
            place: Place::root(alloc),
            row: 0,
        }
    }
}

impl Runner for TableRunner {
    ghost use Rattle.unit_tests.specs.Table.{own_marks, whole_marks};

    type Task = RowTask;

    ghost is_own = { λ r t. Unit {0} };

    ghost place_of = { λ r t. t.place };

    ghost own = { λ r t. own_marks r.rows.items t };

    ghost whole = { λ r t. whole_marks r.rows.items t };

    /// As made.
    fn place<'t>(&self, task: &'t RowTask) -> &'t Place {
        &task.place
    }

    /// The entries of its row, with those of its children in their holes.
    fn run_whole(
        &self,
        alloc: Global,
        task: &RowTask,
        limits: Limits,
        pool: &mut Pool<Segment>,
    ) -> Result<Outcome, AllocError> {
        if limits.ticks > MOST_TICKS {
            return Err(AllocError);
        }
        let total = LocalTotal::new(limits.ticks, 0);
        let _free = pool.free_blocks();
        let blocks = replace(pool, Pool::new(alloc));
        let mut recorder: PieceRecorder<LocalTotal, RowTask> = PieceRecorder::new(
            alloc, limits, total, blocks,
        );
        let reported = record_whole(&self.rows, task, &mut recorder);
        let mut children = Vec::new(alloc);
        let finished = recorder.finish(reported, &mut children);
        *pool = finished.pool;
        finished.outcome
    }
}

impl<T: Total + Drop> PieceRunner<T> for TableRunner {
    /// The entries of its row.
    fn run(
        &self,
        alloc: Global,
        task: &RowTask,
        limits: Limits,
        desk: Desk<T>,
        children: &mut Vec<RowTask>,
    ) -> Ran<T>
        requires open { T.last desk.share ≤ T.most desk.share }
        ensures piece { IfOk result.outcome (IsPiece (own_marks self.now.rows.items task.now) limits
            (T.most desk.share) (T.added desk.share) (T.added result.desk.share)
            (T.last result.desk.share) children.old.items children.new.items) }
        ensures refused { OnErr result.outcome (children.new.items ≡ children.old.items) }
        ensures kept { T.kept result.desk.share ≡ T.kept desk.share }
        ensures most { T.most result.desk.share ≡ T.most desk.share }
        ensures blocks { IfOk result.outcome (λ o.
            desk.pool ≤ part_blocks o.parts.items + result.desk.pool) }
        ensures free { OnErr result.outcome (desk.pool ≤ result.desk.pool) }
    {
        let Desk { share, pool } = desk;
        let mut recorder: PieceRecorder<T, RowTask> = PieceRecorder::new(
            alloc, limits, share, pool,
        );
        let reported = record_own(&self.rows, task, &mut recorder);
        let Finished {
            outcome,
            total,
            pool,
        } = recorder.finish(reported, children);
        Ran {
            outcome,
            desk: Desk { share: total, pool },
        }
    }
}

/// A table is ready to be run, whatever its rows are.
pub fn table_is_ready()
    ensures { IsTableReady }
{}

/// The number of the next hole after an entry.
fn number_after(entry: &Entry, number: u64) -> u64
    requires room { number < 2 ^ 63 }
    ensures number { result ≡ number_after entry.now number }
    ensures more { result ≤ number + 1 }
{
    match entry {
        Entry::Child(_) => number + 1,
        Entry::Tick(_) | Entry::Put(_) | Entry::Say(_) | Entry::Stop(_, _) => number,
    }
}

/// The task of a child.
fn child_of(task: &RowTask, number: u64, skipped: u32) -> Result<RowTask, AllocError>
    requires row { task.now.row < 2 ^ 63 }
    ensures child { IfOk result (λ child. child ≡ child_of task.now number skipped) }
{
    Ok(RowTask {
        place: task.place.child(number)?,
        row: task.row + 1 + skipped as u64,
    })
}

/// Records what a task does itself.
fn record_own<R: Recorder<Task = RowTask>>(
    rows: &[Row],
    task: &RowTask,
    recorder: &mut R,
) -> Result<(), Halt>
    requires holes { R.takes_holes ≡ true }
    ensures reported { IsStep (play (own_marks rows.now task.now) (R.state recorder.old))
        result (R.state recorder.new) }
    ensures kept { R.kept recorder.new ≡ R.kept recorder.old }
{
    match rows.get(task.row as usize) {
        None => recorder.tick(Site { module: 0, line: 0 }),
        Some(row) => {
            recorder.tick(row.site)?;
            record_entries(&row.entries, task, recorder)
        }
    }
}

/// Records entries, with a hole for each child.
fn record_entries<R: Recorder<Task = RowTask>>(
    entries: &[Entry],
    task: &RowTask,
    recorder: &mut R,
) -> Result<(), Halt>
    requires row { task.now.row < 2 ^ 63 }
    requires holes { R.takes_holes ≡ true }
    ensures reported { IsStep (play (entries_marks (λ n k. Hole (child_of task.now n k) ∷ []) 0
        entries.now) (R.state recorder.old)) result (R.state recorder.new) }
    ensures kept { R.kept recorder.new ≡ R.kept recorder.old }
{
    let mut number = 0;
    for entry in entries {
        record_entry(entry, task, number, recorder)?;
        number = number_after(entry, number);
    }
    Ok(())
}

/// Records an entry, with a hole where it is a child.
fn record_entry<R: Recorder<Task = RowTask>>(
    entry: &Entry,
    task: &RowTask,
    number: u64,
    recorder: &mut R,
) -> Result<(), Halt>
    requires row { task.now.row < 2 ^ 63 }
    requires holes { R.takes_holes ≡ true }
    ensures reported { IsStep (play (entry_marks (λ n k. Hole (child_of task.now n k) ∷ []) number
        entry.now) (R.state recorder.old)) result (R.state recorder.new) }
    ensures kept { R.kept recorder.new ≡ R.kept recorder.old }
{
    match entry {
        Entry::Tick(site) => recorder.tick(*site),
        Entry::Put(event) => recorder.put(event.copy()?),
        Entry::Say(text) => recorder.say(text.copy()?),
        Entry::Stop(fault, site) => Err(Halt::Fault(*fault, *site)),
        Entry::Child(skipped) => recorder.hole(child_of(task, number, *skipped)?),
    }
}

/// Records what a task does, with all its children.
#[cycle(whole)]
fn record_whole<R: Recorder<Task = RowTask>>(
    rows: &[Row],
    task: &RowTask,
    recorder: &mut R,
) -> Result<(), Halt>
    ensures reported { IsStep (play (whole_marks rows.now task.now) (R.state recorder.old))
        result (R.state recorder.new) }
    ensures kept { R.kept recorder.new ≡ R.kept recorder.old }
{
    match rows.get(task.row as usize) {
        None => recorder.tick(Site { module: 0, line: 0 }),
        Some(row) => {
            recorder.tick(row.site)?;
            record_whole_entries(rows, &row.entries, task, recorder)
        }
    }
}

/// Records entries, with all that each child does.
#[cycle(whole)]
fn record_whole_entries<R: Recorder<Task = RowTask>>(
    rows: &[Row],
    entries: &[Entry],
    task: &RowTask,
    recorder: &mut R,
) -> Result<(), Halt>
    requires row { task.now.row < length rows.now }
    ensures reported { IsStep (play (entries_marks (λ n k. whole_marks rows.now
        (child_of task.now n k)) 0 entries.now) (R.state recorder.old))
        result (R.state recorder.new) }
    ensures kept { R.kept recorder.new ≡ R.kept recorder.old }
{
    let mut number = 0;
    for entry in entries {
        record_whole_entry(rows, entry, task, number, recorder)?;
        number = number_after(entry, number);
    }
    Ok(())
}

/// Records an entry, with all that is done where it is a child.
#[cycle(whole)]
fn record_whole_entry<R: Recorder<Task = RowTask>>(
    rows: &[Row],
    entry: &Entry,
    task: &RowTask,
    number: u64,
    recorder: &mut R,
) -> Result<(), Halt>
    requires row { task.now.row < length rows.now }
    ensures reported { IsStep (play (entry_marks
        (λ n k. whole_marks rows.now (child_of task.now n k))
        number entry.now) (R.state recorder.old)) result (R.state recorder.new) }
    ensures kept { R.kept recorder.new ≡ R.kept recorder.old }
{
    match entry {
        Entry::Tick(site) => recorder.tick(*site),
        Entry::Put(event) => recorder.put(event.copy()?),
        Entry::Say(text) => recorder.say(text.copy()?),
        Entry::Stop(fault, site) => Err(Halt::Fault(*fault, *site)),
        Entry::Child(skipped) => {
            let child = child_of(task, number, *skipped)?;
            record_whole(rows, &child, recorder)
        }
    }
}
