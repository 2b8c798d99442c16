//! The bytes of a result, by the items of a run, and the lines of messages.

ghost use Rattle.std.specs.Iterator.{YieldsFirstBy, item_count};
ghost use Rattle.std.specs.List.{cons_option};
ghost use Rattle.std.specs.Prelude.{◌≡◌, ◌<◌, ◌+◌, ◌^◌, ◌++◌, [], ℕ, All, IfOk, List};
ghost use Rattle.std.specs.Prelude.{OnOk, length, option_map};
ghost use Rattle.xs_record.specs.Segment.{items_of};
ghost use Rattle.xs_result.specs.Built.{built};
ghost use Rattle.xs_result.specs.Text.{text_in};
ghost use Rattle.xs_reply.specs.Answer.{document_of, message_line, message_lines, result_of};
ghost use Rattle.xs_reply.specs.Items.{events_in};
ghost use Rattle.xs_reply.specs.ReadBack.{ReadsAs};
ghost use Rattle.xs_result_laws.specs.Events.{HasTexts, IsResult};
ghost use Rattle.xs_result_laws.specs.ResultLaws.{IsReadBack};
ghost use Rattle.xs_trace.specs.declared.event.Event.{Event};
ghost use Rattle.xs_result_lines.specs.Lines.{pyx};
ghost use Rattle.xs_result_lines.specs.Stream.{HasTaken};

use std::alloc::{AllocError, Global};
use std::marker::Model;
use xs_block::chain::Chain;
use xs_block::items::Items;
use xs_record::segment::Segment;
use xs_result::write_text;
use xs_result_laws::event_texts;
use xs_result_lines::PyxStream;
use xs_sheet::declarations::Method;
use xs_text::{TextBuf, escape_into};
use xs_trace::event::Event;
use xs_trace::item::Item;

/// The events among some items that are still to come. Contracts see it as the list of them.
#[derive(Drop)]
struct Events<'a> {
    left: Items<'a, Segment>,
}

impl<'a> Model for Events<'a> {
    ghost use Rattle.std.specs.Prelude.{List};
    ghost use Rattle.xs_trace.specs.declared.event.Event.{Event};
    ghost use Rattle.xs_reply.specs.Items.{events_in};
    ghost use Rattle.xs_record.specs.Segment.{joined};

    ghost Value = { List Event };

    ghost view = { λ e. events_in (joined e.left) };
}

impl<'a> Iterator for Events<'a> {
    type Item = &'a Event;

    ghost next_gives = { YieldsFirstBy (λ e. e.now) (λ a. a) };

    ghost remaining = { item_count (λ a. a) };

    #[tactic(auto, using(crate::proofs::ItemLemmas::events_after))]
    fn next(&mut self) -> Option<&'a Event> {
        while let Some(segment) = self.left.next() {
            if let Some(event) = event_of(segment) {
                return Some(event);
            }
        }
        None
    }
}

/// The event of a segment, if there is one.
fn event_of(segment: &Segment) -> Option<&Event>
    ensures { cons_option (option_map (λ e. e.now) result) [] ≡ events_in segment.now }
{
    match segment.content().item {
        Item::Put(event) => Some(event),
        Item::Run { .. } | Item::Say(_) => None,
    }
}

/// The bytes of a result, of the events among the items, as a method writes them. The lines of
/// events that are balanced and can be written read back as what stays of these.
pub fn result_bytes(
    alloc: Global,
    method: Method,
    items: &Chain<Segment>,
) -> Result<Vec<u8>, AllocError>
    ensures bytes { IfOk result (λ bytes. bytes.items
        ≡ result_of method (events_in (items_of items.now))) }
    ensures reads_back { IfOk result (λ bytes. IsResult (events_in (items_of items.now))
        → ReadsAs (document_of method (events_in (items_of items.now))) bytes.items) }
{
    match method {
        Method::Pyx => result_lines(alloc, items),
        Method::Text => result_text(alloc, items),
    }
}

/// The lines of a result: of what stays of the events among the items.
fn result_lines(alloc: Global, items: &Chain<Segment>) -> Result<Vec<u8>, AllocError>
    ensures lines { IfOk result (λ lines. lines.items ≡ pyx (events_in (items_of items.now))) }
    ensures reads_back { IfOk result (λ lines. IsResult (events_in (items_of items.now))
        → IsReadBack lines.items (built (events_in (items_of items.now)))) }
{
    xs_result_laws::results::results_read_back();
    let mut lines = Vec::new(alloc);
    let mut stream = PyxStream::new(alloc)?;
    let mut count = 0;
    for segment in items.items() {
        count = add_segment(&mut stream, &mut lines, count, segment)?;
    }
    stream.finish(&mut lines)?;
    Ok(lines)
}

/// Adds the event of a segment, if there is one, to a stream that has so many, and counts it. The
/// texts of an event are UTF-8, and no memory holds 2^64 events.
#[tactic(auto, using(crate::proofs::ReadBackLemmas::one_text))]
fn add_segment<'e>(
    stream: &mut PyxStream<'e>,
    lines: &mut Vec<u8>,
    count: u64,
    segment: &'e Segment,
) -> Result<u64, AllocError>
    ensures taken { OnOk result ((old : List ℕ) (es : List Event)
        → HasTaken stream.old old lines.old.items es
        → HasTaken stream.new old lines.new.items (es ++ events_in segment.now)) }
    ensures texts { OnOk result (All HasTexts (events_in segment.now)) }
    ensures counted { IfOk result (λ n. n ≡ count + length (events_in segment.now)) }
    ensures few { IfOk result (λ n. n < 2 ^ 64) }
{
    match event_of(segment) {
        Some(event) => {
            event_texts(event);
            if count == u64::MAX {
                return Err(AllocError);
            }
            stream.add(lines, event)?;
            Ok(count + 1)
        }
        None => Ok(count),
    }
}

/// The text of a result: of the text nodes that stay of the events among the items.
fn result_text(alloc: Global, items: &Chain<Segment>) -> Result<Vec<u8>, AllocError>
    ensures { IfOk result (λ text. text.items
        ≡ text_in (built (events_in (items_of items.now)))) }
{
    let mut text = Vec::new(alloc);
    let left = items.items();
    write_text(&mut text, Events { left })?;
    Ok(text)
}

/// The lines of messages, and of those after them.
pub fn message_lines(
    alloc: Global,
    says: &[TextBuf],
    more: &[TextBuf],
) -> Result<Vec<u8>, AllocError>
    ensures { IfOk result (λ lines. lines.items ≡ message_lines (says.now ++ more.now)) }
{
    let mut lines = Vec::new(alloc);
    append_messages(&mut lines, says)?;
    append_messages(&mut lines, more)?;
    Ok(lines)
}

/// Appends the lines of messages.
fn append_messages(lines: &mut Vec<u8>, says: &[TextBuf]) -> Result<(), AllocError>
    ensures { OnOk result (lines.new.items ≡ lines.old.items ++ message_lines says.now) }
{
    for text in says {
        append_message(lines, text)?;
    }
    Ok(())
}

/// Appends the line of a message.
fn append_message(lines: &mut Vec<u8>, text: &TextBuf) -> Result<(), AllocError>
    ensures { OnOk result (lines.new.items ≡ lines.old.items ++ message_line text.now) }
{
    lines.extend_from_slice(b"message ")?;
    escape_into(lines, text.as_str())?;
    lines.extend_from_slice(b"\n")
}
