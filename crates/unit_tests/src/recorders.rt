//! Recorders, meters and totals up to each of their limits, and what they record.

ghost use Rattle.std.specs.Prelude.{◌≡◌, true};
ghost use Rattle.xs_trace.specs.Kept.{NeedsNone};

use std::alloc::{AllocError, Global};
use std::cmp::Ordering;
use xs_block::pool::Pool;
use xs_core::place::{Claim, Place, compare_places};
use xs_record::brief::Brief;
use xs_record::outcome::{Outcome, Part};
use xs_record::piece::{Finished, PieceRecorder};
use xs_record::segment::Segment;
use xs_text::TextBuf;
use xs_trace::event::{Event, Fragment};
use xs_trace::fault::Fault;
use xs_trace::item::{Ended, Item, Limits, Site};
use xs_trace::meter::Meter;
use xs_trace::recorder::{Halt, Recorder, Tally, put_event, say_message, tick_several};
use xs_trace::total::{LocalTotal, Total};

// What only types whose values cross threads are given to.
fn crosses_threads<T: Send + Sync>() {}

#[test]
fn cross_threads() {
    crosses_threads::<TextBuf>();
    crosses_threads::<Claim>();
    crosses_threads::<Fragment>();
}

// The place with these numbers.
fn place_of(alloc: Global, numbers: &[u64]) -> Result<Place, AllocError> {
    let mut place = Place::root(alloc);
    for number in numbers {
        place = place.child(*number)?;
    }
    Ok(place)
}

// A copy of the place with these numbers.
fn copy_of(alloc: Global, numbers: &[u64]) -> Result<Place, AllocError> {
    place_of(alloc, numbers)?.copy()
}

// How the copy of one place compares with another.
fn compared(alloc: Global, numbers: &[u64], others: &[u64]) -> Result<Ordering, AllocError> {
    let copy = copy_of(alloc, numbers)?;
    let other = place_of(alloc, others)?;
    Ok(compare_places(&copy, &other))
}

// Whether a place has the numbers that it was made of.
fn has_numbers(alloc: Global, numbers: &[u64]) -> Result<bool, AllocError> {
    let place = place_of(alloc, numbers)?;
    Ok(place.numbers() == numbers)
}

// Whether places are in the order of their numbers.
fn are_in_order(alloc: Global) -> Result<bool, AllocError> {
    Ok(
        compared(alloc, &[], &[3, 1])? == Ordering::Less
            && compared(alloc, &[3, 1], &[2])? == Ordering::Greater,
    )
}

#[test]
fn places(rt: HostRuntime) -> Result<(), AllocError> {
    assert!(rt; has_numbers(rt.alloc(), &[3, 1])?);
    assert!(rt; are_in_order(rt.alloc())?);
    Ok(())
}

const SITE: Site = Site { module: 0, line: 7 };

const TWO_TICKS: Limits = Limits {
    ticks: 2,
    events: None,
};

const ONE_EVENT: Limits = Limits {
    ticks: 9,
    events: Some(1),
};

// An end that is captured alone; answers how many events were captured.
fn capture<R: Recorder<Task = u64>>(recorder: &mut R) -> Result<usize, Halt> {
    recorder.open_capture()?;
    put_event(recorder, SITE, Event::End)?;
    Ok(recorder.close_capture().events().len())
}

// An end and a message.
fn put_and_say<R: Recorder<Task = u64>>(alloc: Global, recorder: &mut R) -> Result<(), Halt> {
    put_event(recorder, SITE, Event::End)?;
    say_message(recorder, SITE, TextBuf::of(alloc, "hi")?)
}

// Three ticks, an end that is captured alone, an end and a message; answers how many events were
// captured.
fn record<R: Recorder<Task = u64>>(alloc: Global, recorder: &mut R) -> Result<usize, Halt> {
    recorder.tick(SITE)?;
    recorder.ticks(SITE, 2)?;
    let captured = capture(recorder)?;
    put_and_say(alloc, recorder)?;
    Ok(captured)
}

// Whether there are an event and a message, and nothing besides.
fn are_both(items: &[Item]) -> bool {
    matches!(items, [Item::Put(_), Item::Say(_)])
}

// A recorder with a total of its own, to which others had added so much.
fn recorder(
    alloc: Global,
    limits: Limits,
    most: u16,
    others: u16,
) -> PieceRecorder<LocalTotal, u64> {
    let total = LocalTotal::new(u64::from(most), u64::from(others));
    PieceRecorder::new(alloc, limits, total, Pool::new(alloc))
}

// Whether a segment has three ticks at the line 7, and an event.
fn is_ticks_and_end(segment: &Segment) -> bool {
    let content = segment.content();
    content.first.ticks == 0
        && content.last.site == SITE
        && content.last.ticks == 3
        && matches!(content.item, Item::Put(Event::End))
}

// Whether a segment is a message alone.
fn is_message(segment: &Segment) -> bool {
    matches!(segment.content().item, Item::Say(_))
}

// Whether a part has three ticks, an event and a message.
fn is_full_part(part: &Part) -> bool {
    let mut segments = part.items.items();
    matches!(segments.next(), Some(segment) if is_ticks_and_end(segment))
        && matches!(segments.next(), Some(segment) if is_message(segment))
        && segments.next().is_none()
        && part.hole.is_none()
}

// Whether a run has three ticks, an event and a message, and ended at a second event.
fn is_full_run(outcome: &Outcome) -> bool {
    outcome.parts.len() == 1
        && matches!(outcome.parts.first(), Some(part) if is_full_part(part))
        && outcome.ticks == 3
        && matches!(&outcome.ended, Ended::Full(spot) if spot.fault == Fault::TooManyEvents)
}

// Whether a recorder of one event records it, and no other.
fn takes_one_event<R: Recorder<Task = u64>>(alloc: Global, recorder: &mut R) -> bool {
    record(alloc, recorder) == Ok(1) && recorder.put(Event::End) == Err(Halt::Full(SITE))
}

// Whether a recorder of two ticks records no third one, at once or alone.
fn takes_two_ticks<R: Recorder<Task = u64>>(recorder: &mut R) -> bool {
    recorder.ticks(SITE, 3) == Err(Halt::Spent(SITE))
        && recorder.tick(SITE) == Err(Halt::Spent(SITE))
}

// What a piece gave, and how far its total is above its limit.
fn reported(finished: Finished<LocalTotal>) -> (Result<Outcome, AllocError>, Option<u64>) {
    let above = finished.total.above();
    (finished.outcome, above)
}

// Whether a run ended at a second event, and below its total's limit.
fn is_full(finished: Finished<LocalTotal>) -> Result<bool, AllocError> {
    let (outcome, above) = reported(finished);
    Ok(above == None && is_full_run(&outcome?))
}

// Whether a run had two ticks, and ended at the next.
fn is_spent(finished: Finished<LocalTotal>) -> Result<bool, AllocError> {
    let outcome = finished.outcome?;
    Ok(
        outcome.ticks == 2
            && matches!(&outcome.ended, Ended::Spent(spot) if spot.fault == Fault::Budget),
    )
}

// Whether a run records one event, and ends at the next.
fn records_a_run(alloc: Global) -> Result<bool, AllocError> {
    let mut run = recorder(alloc, ONE_EVENT, 9, 0);
    let is_taken = takes_one_event(alloc, &mut run);
    let mut children = Vec::new(alloc);
    let finished = run.finish(Err(Halt::Full(SITE)), &mut children);
    let is_alone = children.is_empty();
    drop(children);
    let is_whole = is_full(finished)?;
    Ok(is_taken && is_alone && is_whole)
}

// Whether a run records two ticks, and ends at the next.
fn stops_at_its_limit(alloc: Global) -> Result<bool, AllocError> {
    let mut run = recorder(alloc, TWO_TICKS, 2, 0);
    let is_taken = takes_two_ticks(&mut run);
    let mut children = Vec::new(alloc);
    let finished = run.finish(Err(Halt::Spent(SITE)), &mut children);
    drop(children);
    let is_stopped = is_spent(finished)?;
    Ok(is_taken && is_stopped)
}

// Whether an attempt keeps an event and a message, and no ticks.
fn keeps_no_ticks(alloc: Global) -> bool {
    let mut brief: Brief<u64> = Brief::new(alloc, ONE_EVENT);
    let is_taken = takes_one_event(alloc, &mut brief);
    let left = brief.left();
    let items = brief.finish();
    let is_kept = are_both(items.as_slice());
    drop(items);
    is_taken && left == 6 && is_kept
}

// Whether an attempt spends two ticks, and keeps nothing.
fn spends_without_keeping(alloc: Global) -> bool {
    let mut brief: Brief<u64> = Brief::new(alloc, TWO_TICKS);
    let is_taken = takes_two_ticks(&mut brief);
    let is_refused = brief.hole(7) == Err(Halt::NoMemory);
    let items = brief.finish();
    let is_empty = items.is_empty();
    drop(items);
    is_taken && is_refused && is_empty
}

#[test]
fn runs_and_attempts(rt: HostRuntime) -> Result<(), AllocError> {
    assert!(rt; records_a_run(rt.alloc())?);
    assert!(rt; stops_at_its_limit(rt.alloc())?);
    assert!(rt; keeps_no_ticks(rt.alloc()));
    assert!(rt; spends_without_keeping(rt.alloc()));
    Ok(())
}

// Some ticks, an end, a hole and a message.
fn record_piece<R: Recorder<Task = u64>>(
    alloc: Global,
    recorder: &mut R,
    ticks: u64,
) -> Result<(), Halt>
    requires holes { R.takes_holes ≡ true }
{
    recorder.ticks(SITE, ticks)?;
    recorder.put(Event::End)?;
    recorder.hole(7)?;
    recorder.say(TextBuf::of(alloc, "hi")?)
}

// How a run ended that is whole, or above the limit of its total.
fn whole_or_over(reported: Result<(), Halt>) -> Result<(), Halt>
    ensures { NeedsNone result }
{
    match reported {
        Ok(()) => Ok(()),
        Err(Halt::Over { total }) => Err(Halt::Over { total }),
        Err(_) => Err(Halt::NoMemory),
    }
}

// A piece of so many ticks, over a total of which others had added so much.
fn piece(alloc: Global, others: u16, ticks: u64, children: &mut Vec<u64>) -> Finished<LocalTotal> {
    let limits = Limits {
        ticks: 2000,
        events: None,
    };
    let mut piece = recorder(alloc, limits, 2000, others);
    let reported = record_piece(alloc, &mut piece, ticks);
    piece.finish(whole_or_over(reported), children)
}

// Whether an outcome has five ticks, a part before the hole 0, and one after it.
fn has_a_hole(outcome: &Outcome) -> bool {
    matches!(
        outcome.parts.as_slice(),
        [Part { hole: Some(0), .. }, Part { hole: None, .. }]
    ) && outcome.ticks == 5
        && matches!(&outcome.ended, Ended::Whole)
}

// Whether a piece has a hole, and ended below its total's limit.
fn is_piece_with_a_hole(finished: Finished<LocalTotal>) -> Result<bool, AllocError> {
    let (outcome, above) = reported(finished);
    Ok(above == None && has_a_hole(&outcome?))
}

// Whether a piece has a hole, and its child.
fn records_a_piece(alloc: Global) -> Result<bool, AllocError> {
    let mut children = Vec::new(alloc);
    let finished = piece(alloc, 0, 5, &mut children);
    let has_child = children.as_slice() == [7].as_slice();
    drop(children);
    let is_recorded = is_piece_with_a_hole(finished)?;
    Ok(has_child && is_recorded)
}

// Whether a piece ended after 1,024 ticks, since its total was above its limit.
fn is_over(finished: Finished<LocalTotal>) -> Result<bool, AllocError> {
    let (outcome, above) = reported(finished);
    let outcome = outcome?;
    Ok(
        above == Some(2524)
            && outcome.ticks == 1024
            && matches!(&outcome.ended, Ended::Over { total: 2524 }),
    )
}

// Whether a piece ends above the limit of its total.
fn ends_over_a_total(alloc: Global) -> Result<bool, AllocError> {
    let mut children = Vec::new(alloc);
    let finished = piece(alloc, 1500, 1500, &mut children);
    let is_alone = children.is_empty() && finished.total.limit() == 2000;
    drop(children);
    let is_ended = is_over(finished)?;
    Ok(is_alone && is_ended)
}

// Whether a piece adds 1,024 of 1,025 ticks to its total.
fn adds_all_but_one(piece: &mut PieceRecorder<LocalTotal, u64>) -> bool {
    piece.ticks(SITE, 1025) == Ok(()) && piece.unpaid() == 1 && piece.total().above() == None
}

// Whether a piece adds its ticks to its total.
fn adds_its_ticks(alloc: Global) -> bool {
    let limits = Limits {
        ticks: 2000,
        events: None,
    };
    let mut piece = recorder(alloc, limits, 2000, 0);
    let is_added = adds_all_but_one(&mut piece);
    drop(piece);
    is_added
}

// Whether a meter of two ticks takes two, and no third one.
fn meters() -> bool {
    let mut meter = Meter {
        limit: Some(2),
        spent: 0,
    };
    let is_taken = tick_several(&mut meter, SITE, 2) == Ok(());
    let is_spent = meter.tick(SITE) == Err(Halt::Spent(SITE));
    is_taken && is_spent && meter.spent == 2
}

#[test]
fn pieces_and_meters(rt: HostRuntime) -> Result<(), AllocError> {
    assert!(rt; records_a_piece(rt.alloc())?);
    assert!(rt; ends_over_a_total(rt.alloc())?);
    assert!(rt; adds_its_ticks(rt.alloc()));
    assert!(rt; meters());
    Ok(())
}
