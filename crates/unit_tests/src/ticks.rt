//! Ticks in a row: runs in pieces that are cut at each of them, and the segments that they lie in.

ghost use Rattle.std.specs.Prelude.{◌≤◌, ◌^◌};

use crate::pieces::{agrees, are_run_again, at, at_once, in_pieces, push_log};
use crate::table::{Entry, Row, TableRunner};
use std::alloc::{AllocError, Global};
use std::thread::Threads;
use xs_record::outcome::{Outcome, Part};
use xs_record::segment::Segment;
use xs_trace::event::Event;
use xs_trace::item::{Item, Site};

// Adds entries of so many ticks at a place.
fn push_several(entries: &mut Vec<Entry>, site: Site, ticks: u64) -> Result<(), AllocError> {
    for _tick in 0..ticks {
        entries.push(Entry::Tick(site))?;
    }
    Ok(())
}

// A root of eight ticks, and two children of one: after the first child three ticks in a row at a
// line, after the second one two at each of two lines, and an event.
fn ticks_in_a_row(alloc: Global) -> Result<TableRunner, AllocError> {
    let mut entries = Vec::new(alloc);
    entries.push(Entry::Child(0))?;
    push_several(&mut entries, at(2), 3)?;
    entries.push(Entry::Child(1))?;
    push_several(&mut entries, at(3), 2)?;
    push_several(&mut entries, at(4), 2)?;
    entries.push(Entry::Put(Event::End))?;
    let mut rows = Vec::new(alloc);
    let site = at(1);
    rows.push(Row { site, entries })?;
    push_log(alloc, &mut rows, 5, &[])?;
    push_log(alloc, &mut rows, 6, &[])?;
    Ok(TableRunner { rows })
}

// The ticks of a child that is run in its place leave fewer to the root, whose ticks are cut.
#[test]
fn ticks_in_a_row_are_cut_at_each(rt: HostRuntime) -> Result<(), AllocError> {
    let runner = ticks_in_a_row(rt.alloc())?;
    let inline = [0, 1, 1, 1, 1, 2, 2, 2, 2, 1, 0];
    let are_cut = are_run_again(&rt, rt.alloc(), &runner, &inline);
    drop(runner);
    assert!(rt; are_cut?);
    Ok(())
}

// Adds two ticks at each of these lines of a module.
fn push_lines(
    entries: &mut Vec<Entry>,
    module: u32,
    first: u32,
    end: u32,
) -> Result<(), AllocError> {
    for line in first..end {
        push_several(entries, Site { module, line }, 2)?;
    }
    Ok(())
}

// Adds ticks at places in a row: at five lines of one module and two of another one, at a large
// line, and more of them than a byte counts.
fn push_places(entries: &mut Vec<Entry>) -> Result<(), AllocError> {
    push_lines(entries, 0, 2, 7)?;
    push_lines(entries, 1, 2, 4)?;
    push_lines(entries, 0, 70_000, 70_001)?;
    push_several(entries, at(2), 260)
}

// A row of so many ticks after its own one.
fn row_of_ticks(alloc: Global, ticks: u64) -> Result<Row, AllocError> {
    let mut entries = Vec::new(alloc);
    push_several(&mut entries, at(9), ticks)?;
    let site = at(8);
    Ok(Row { site, entries })
}

// A root of 285 ticks, and two children of a tick and so many more: ticks at many places between
// the children, and at four lines before an event after them.
fn ticks_at_places(alloc: Global, ticks: u64) -> Result<TableRunner, AllocError> {
    let mut entries = Vec::new(alloc);
    entries.push(Entry::Child(0))?;
    push_places(&mut entries)?;
    entries.push(Entry::Child(1))?;
    push_lines(&mut entries, 0, 2, 6)?;
    entries.push(Entry::Put(Event::End))?;
    let mut rows = Vec::new(alloc);
    let site = at(1);
    rows.push(Row { site, entries })?;
    rows.push(row_of_ticks(alloc, ticks)?)?;
    rows.push(row_of_ticks(alloc, ticks)?)?;
    Ok(TableRunner { rows })
}

// Whether within so many ticks a run in pieces gives what one at once gives.
fn is_same_within<X: Threads + Sync>(
    rt: &X,
    alloc: Global,
    runner: &TableRunner,
    ticks: u64,
) -> Result<bool, AllocError>
    requires few { ticks ≤ 2 ^ 40 }
{
    let run = in_pieces(rt, alloc, runner, ticks, 1)?;
    let whole = at_once(alloc, runner, ticks)?;
    agrees(alloc, &run.assembled, &whole)
}

// Whether a run in pieces gives what one at once gives within each limit below this one.
fn is_same_below<X: Threads + Sync>(
    rt: &X,
    alloc: Global,
    runner: &TableRunner,
    limit: u32,
) -> Result<bool, AllocError> {
    for ticks in 0..limit {
        if !is_same_within(rt, alloc, runner, ticks as u64)? {
            return Ok(false);
        }
    }
    Ok(true)
}

// Whether a run in pieces gives the same within each limit, where each child has so many ticks
// more than its first.
fn is_cut_alike<X: Threads + Sync>(rt: &X, alloc: Global, ticks: u64) -> Result<bool, AllocError> {
    let runner = ticks_at_places(alloc, ticks)?;
    let is_same = is_same_below(rt, alloc, &runner, 310);
    drop(runner);
    is_same
}

// Whether ticks at many places are cut at each tick, up to eight before the last one recorded.
fn are_places_cut<X: Threads + Sync>(rt: &X, alloc: Global) -> Result<bool, AllocError> {
    for ticks in 0..8_u64 {
        if !is_cut_alike(rt, alloc, ticks)? {
            return Ok(false);
        }
    }
    Ok(true)
}

#[test]
fn ticks_at_places_are_cut_at_each(rt: HostRuntime) -> Result<(), AllocError> {
    assert!(rt; are_places_cut(&rt, rt.alloc())?);
    Ok(())
}

// A row of two ticks at each of so many lines of the module 1, and an event after them.
fn ticks_and_end(alloc: Global, lines: u32) -> Result<TableRunner, AllocError> {
    let mut entries = Vec::new(alloc);
    let site = Site { module: 1, line: 2 };
    entries.push(Entry::Tick(site))?;
    push_lines(&mut entries, 1, 3, lines.wrapping_add(2))?;
    entries.push(Entry::Put(Event::End))?;
    let mut rows = Vec::new(alloc);
    rows.push(Row { site, entries })?;
    Ok(TableRunner { rows })
}

// Whether a segment has so many ticks at a first place, two at a last one, and an event.
fn is_whole_segment(segment: &Segment, first: u64) -> bool {
    let content = segment.content();
    content.first.ticks == first
        && content.last.ticks == 2
        && matches!(content.item, Item::Put(Event::End))
}

// Whether a run is one segment, with so many ticks at a first place.
fn is_one_segment(outcome: &Outcome, first: u64) -> bool {
    let [Part { items, .. }] = outcome.parts.as_slice() else {
        return false;
    };
    let mut segments = items.items();
    matches!(segments.next(), Some(segment) if is_whole_segment(segment, first))
        && segments.next().is_none()
}

// Whether ticks at so many lines and an event after them are one segment.
fn are_together(alloc: Global, lines: u32, first: u64) -> Result<bool, AllocError> {
    let runner = ticks_and_end(alloc, lines)?;
    let outcome = at_once(alloc, &runner, 9);
    drop(runner);
    Ok(is_one_segment(&outcome?, first))
}

#[test]
fn ticks_lie_beside_their_event(rt: HostRuntime) -> Result<(), AllocError> {
    assert!(rt; are_together(rt.alloc(), 1, 0)?);
    assert!(rt; are_together(rt.alloc(), 2, 2)?);
    Ok(())
}
