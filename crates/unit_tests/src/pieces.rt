//! Runs in pieces of which some are missing, and are run again in their places.

ghost use Rattle.std.specs.Prelude.{◌≡◌, ◌<◌, ◌≤◌, ◌^◌};

use crate::table::{Entry, Row, TableRunner, table_is_ready};
use std::alloc::{AllocError, Global};
use std::thread::Threads;
use xs_assemble::assembled::{Assembled, Executed};
use xs_assemble::execute::execute;
use xs_block::chain::Chain;
use xs_block::pool::Pool;
use xs_outside::{Gate, OpenGate};
use xs_pieces::runner::Runner;
use xs_pool::crew::Crew;
use xs_pool::ear::{Deaf, Ear};
use xs_record::outcome::{Outcome, Part};
use xs_record::segment::{Run, Segment};
use xs_text::TextBuf;
use xs_trace::event::Event;
use xs_trace::fault::Fault;
use xs_trace::item::{Ended, Item, Limits, Site, Spot};

/// The instruction at a line.
pub(crate) fn at(line: u32) -> Site {
    Site { module: 0, line }
}

// The entries of a piece: for each child a hole, a tick and a message, and an event after them.
fn entries(alloc: Global, line: u32, children: &[u32]) -> Result<Vec<Entry>, AllocError> {
    let mut entries = Vec::new(alloc);
    for child in children {
        entries.push(Entry::Child(*child))?;
        entries.push(Entry::Tick(at(line)))?;
        entries.push(Entry::Say(TextBuf::of(alloc, "m")?))?;
    }
    entries.push(Entry::Put(Event::End))?;
    Ok(entries)
}

/// Adds a piece: a tick at a line, and entries with ticks at another one.
pub(crate) fn push_log(
    alloc: Global,
    rows: &mut Vec<Row>,
    line: u32,
    children: &[u32],
) -> Result<(), AllocError> {
    let entries = entries(alloc, line.wrapping_add(10), children)?;
    let site = at(line);
    rows.push(Row { site, entries })?;
    Ok(())
}

// A root with two children, which have two each: 13 ticks, in the order of the document at the
// lines 1, 2, 3, 12, 4, 12, 11, 5, 6, 15, 7, 15 and 11.
fn push_seven(alloc: Global, rows: &mut Vec<Row>) -> Result<(), AllocError> {
    push_log(alloc, rows, 1, &[0, 3])?;
    push_log(alloc, rows, 2, &[0, 1])?;
    push_log(alloc, rows, 3, &[])?;
    push_log(alloc, rows, 4, &[])?;
    push_log(alloc, rows, 5, &[0, 1])?;
    push_log(alloc, rows, 6, &[])?;
    push_log(alloc, rows, 7, &[])
}

/// Seven pieces: a root, its two children, and two children of each of these.
pub(crate) fn seven_pieces(alloc: Global) -> Result<TableRunner, AllocError> {
    let mut rows = Vec::new(alloc);
    push_seven(alloc, &mut rows)?;
    Ok(TableRunner { rows })
}

/// Limits of so many ticks.
pub(crate) fn limits_of(ticks: u64) -> Limits
    ensures ticks { result.ticks ≡ ticks }
{
    Limits {
        ticks,
        events: None,
    }
}

/// What a run in pieces by a crew gives, of which an ear hears.
pub(crate) fn run_heard<X: Threads + Sync, G: Gate, H: Ear>(
    rt: &X,
    crew: &Crew<'_, TableRunner, G>,
    ear: &mut H,
) -> Result<Executed, AllocError>
    requires few { crew.now.limits.ticks ≤ 2 ^ 40 }
    requires count { (0 < crew.now.count) × (crew.now.count ≤ 64) }
{
    let mut pool = Pool::new(crew.alloc);
    let root = crew.runner.root_task(crew.alloc);
    table_is_ready();
    execute(rt, crew, root, ear, &mut pool)
}

/// What a run in pieces by a crew gives.
pub(crate) fn run_by<X: Threads + Sync, G: Gate>(
    rt: &X,
    crew: &Crew<'_, TableRunner, G>,
) -> Result<Executed, AllocError>
    requires few { crew.now.limits.ticks ≤ 2 ^ 40 }
    requires count { (0 < crew.now.count) × (crew.now.count ≤ 64) }
{
    run_heard(rt, crew, &mut Deaf)
}

/// What a run in pieces by so many workers gives within so many ticks.
pub(crate) fn in_pieces<X: Threads + Sync>(
    rt: &X,
    alloc: Global,
    runner: &TableRunner,
    ticks: u64,
    count: u32,
) -> Result<Executed, AllocError>
    requires few { ticks ≤ 2 ^ 40 }
    requires count { (0 < count) × (count ≤ 64) }
{
    let crew = Crew {
        alloc,
        runner,
        gate: &OpenGate,
        limits: limits_of(ticks),
        count,
    };
    run_by(rt, &crew)
}

/// What a run as a whole gives within so many ticks.
pub(crate) fn at_once(
    alloc: Global,
    runner: &TableRunner,
    ticks: u64,
) -> Result<Outcome, AllocError> {
    let mut pool = Pool::new(alloc);
    let root = runner.root_task(alloc);
    table_is_ready();
    runner.run_whole(alloc, &root, limits_of(ticks), &mut pool)
}

// What an item is: ticks at a place, a message of so many bytes, or an event.
#[derive(Clone, Copy, PartialEq, Eq)]
enum Kind {
    Ticks(Site, u64),
    Message(usize),
    Event,
}

// Adds ticks, if there are any.
fn push_ticks(kinds: &mut Vec<Kind>, run: Run) -> Result<(), AllocError> {
    if run.ticks > 0 {
        kinds.push(Kind::Ticks(run.site, run.ticks))?;
    }
    Ok(())
}

// What an item is.
fn kind_of(item: &Item) -> Kind {
    match item {
        Item::Run {
            module,
            line,
            ticks,
        } => {
            let site = Site {
                module: *module,
                line: *line,
            };
            Kind::Ticks(site, *ticks)
        }
        Item::Put(_) => Kind::Event,
        Item::Say(text) => Kind::Message(text.as_str().len()),
    }
}

// Adds the items of a segment.
fn push_kinds(kinds: &mut Vec<Kind>, segment: &Segment) -> Result<(), AllocError> {
    let content = segment.content();
    push_ticks(kinds, content.first)?;
    push_ticks(kinds, content.last)?;
    kinds.push(kind_of(content.item))?;
    Ok(())
}

// What the items of a chain are.
fn kinds(alloc: Global, items: &Chain<Segment>) -> Result<Vec<Kind>, AllocError> {
    let mut kinds = Vec::new(alloc);
    for segment in items.items() {
        push_kinds(&mut kinds, segment)?;
    }
    Ok(kinds)
}

// Whether two chains have the same items.
fn are_same(
    alloc: Global,
    items: &Chain<Segment>,
    others: &Chain<Segment>,
) -> Result<bool, AllocError> {
    let left = kinds(alloc, items)?;
    let right = kinds(alloc, others)?;
    Ok(left.as_slice() == right.as_slice())
}

// Whether a run in pieces ended as one at once did.
fn ends_so(end: Option<Spot>, ended: &Ended) -> bool {
    match ended {
        Ended::Whole => end == None,
        Ended::Fault(spot) | Ended::Spent(spot) | Ended::Full(spot) => end == Some(*spot),
        Ended::Over { .. } => false,
    }
}

/// Whether a run in pieces gives what one at once gives.
pub(crate) fn agrees(
    alloc: Global,
    assembled: &Assembled,
    whole: &Outcome,
) -> Result<bool, AllocError> {
    let [Part { items, hole: None }] = whole.parts.as_slice() else {
        return Ok(false);
    };
    Ok(
        are_same(alloc, &assembled.items, items)?
            && ends_so(assembled.end, &whole.ended)
            && assembled.ticks == whole.ticks,
    )
}

// Whether within so many ticks one worker gives what one run gives, and so many pieces are run
// again in their places.
fn is_run_again<X: Threads + Sync>(
    rt: &X,
    alloc: Global,
    runner: &TableRunner,
    ticks: u64,
    inline: u64,
) -> Result<bool, AllocError>
    requires few { ticks ≤ 2 ^ 40 }
{
    let run = in_pieces(rt, alloc, runner, ticks, 1)?;
    let whole = at_once(alloc, runner, ticks)?;
    Ok(agrees(alloc, &run.assembled, &whole)? && run.assembled.inline == inline)
}

/// Whether within no tick, one tick, and so on, so many pieces are run again in their places.
pub(crate) fn are_run_again<X: Threads + Sync>(
    rt: &X,
    alloc: Global,
    runner: &TableRunner,
    inline: &[u64],
) -> Result<bool, AllocError> {
    let mut ticks = 0_u32;
    for count in inline {
        if !is_run_again(rt, alloc, runner, ticks as u64, *count)? {
            return Ok(false);
        }
        ticks = ticks.wrapping_add(1);
    }
    Ok(true)
}

// One worker runs the pieces in the document's order, where they begin at the ticks 1, 2, 3, 5, 8,
// 9 and 11; the first one above the limit is the last one.
#[test]
fn missing_pieces_are_run_in_their_places(rt: HostRuntime) -> Result<(), AllocError> {
    let runner = seven_pieces(rt.alloc())?;
    let inline = [0, 1, 1, 1, 1, 1, 2, 2, 1, 1, 1, 2, 1, 0, 0];
    let are_run = are_run_again(&rt, rt.alloc(), &runner, &inline);
    drop(runner);
    assert!(rt; are_run?);
    Ok(())
}

// Adds a piece of three ticks, at the lines 3 to 5, with a message after the second.
fn push_child(alloc: Global, rows: &mut Vec<Row>) -> Result<(), AllocError> {
    let mut entries = Vec::new(alloc);
    entries.push(Entry::Tick(at(4)))?;
    entries.push(Entry::Say(TextBuf::of(alloc, "a")?))?;
    entries.push(Entry::Tick(at(5)))?;
    let site = at(3);
    rows.push(Row { site, entries })?;
    Ok(())
}

// A root with a tick at the line 1, its child, and a tick at the line 11.
fn two_pieces(alloc: Global) -> Result<TableRunner, AllocError> {
    let mut rows = Vec::new(alloc);
    push_log(alloc, &mut rows, 1, &[0])?;
    push_child(alloc, &mut rows)?;
    Ok(TableRunner { rows })
}

// Whether these are one message, and it is the text.
fn is_said(says: &[TextBuf], text: &str) -> bool {
    match says.first() {
        None => false,
        Some(said) => says.len() == 1 && said.as_str() == text,
    }
}

// Whether a run within so many ticks says `a` and takes all of them, the child is run again in its
// place, and the next tick, at a line, is one too many; and how many ticks were taken in all.
fn ends_at<X: Threads + Sync>(
    rt: &X,
    alloc: Global,
    ticks: u64,
    line: u32,
    worked: u64,
) -> Result<bool, AllocError>
    requires few { ticks ≤ 2 ^ 40 }
{
    let runner = two_pieces(alloc)?;
    let run = in_pieces(rt, alloc, &runner, ticks, 1);
    drop(runner);
    let run = run?;
    let spent = Spot {
        fault: Fault::Budget,
        module: 0,
        line,
    };
    Ok(
        is_said(run.assembled.says.as_slice(), "a")
            && run.assembled.end == Some(spent)
            && run.assembled.ticks == ticks
            && run.assembled.inline == 1
            && run.claims.len() == 2
            && run.worked == worked,
    )
}

#[test]
fn a_missing_piece_is_run_in_its_place(rt: HostRuntime) -> Result<(), AllocError> {
    assert!(rt; ends_at(&rt, rt.alloc(), 4, 11, 8)?);
    assert!(rt; ends_at(&rt, rt.alloc(), 3, 5, 7)?);
    Ok(())
}
