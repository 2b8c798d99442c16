//! The text of a result (XSLT 1.0, 16.3).

ghost use Rattle.std.specs.Prelude.{◌≡◌, ◌++◌, List, map, OnOk, OnErr};
ghost use Rattle.std.specs.Iterator.{Drains, IsFinite};
ghost use Rattle.std.specs.Str.{IsUtf8};
ghost use Rattle.xs_result.specs.Built.{built};
ghost use Rattle.xs_result.specs.Text.{own_text, text_in};
ghost use Rattle.xs_trace.specs.declared.event.Event.{Event};
ghost use denote.Ref.{Bor};

use std::alloc::AllocError;
use xs_trace::event::Event;

/// Appends the text of all text nodes that stay of the events that an iterator gives, as it is.
/// After a refusal `out` is as it was.
pub fn write_text<'e, I: Iterator<Item = &'e Event> + Drop>(
    out: &mut Vec<u8>,
    events: I,
) -> Result<(), AllocError>
    requires can { I.can_next events }
    requires ends { IsFinite (I.remaining events) }
    ensures text { OnOk result ((es : List (Bor Event)) × Drains I.next_gives events es
        × (out.new.items ≡ out.old.items ++ text_in (built (map (λ e. e.now) es)))) }
    ensures utf8 { IsUtf8 out.old.items → IsUtf8 out.new.items }
    ensures refused { OnErr result (out.new.items ≡ out.old.items) }
{
    let before = out.len();
    match append_texts(out, events) {
        Ok(()) => Ok(()),
        Err(error) => {
            out.truncate(before);
            Err(error)
        }
    }
}

/// Appends their texts; after a refusal some of them.
fn append_texts<'e, I: Iterator<Item = &'e Event> + Drop>(
    out: &mut Vec<u8>,
    events: I,
) -> Result<(), AllocError>
    requires can { I.can_next events }
    requires ends { IsFinite (I.remaining events) }
    ensures text { (es : List (Bor Event))
        × (out.new.items ≡ out.old.items ++ text_in (map (λ e. e.now) es))
        × OnOk result (Drains I.next_gives events es) }
    ensures utf8 { IsUtf8 out.old.items → IsUtf8 out.new.items }
{
    for event in events {
        append_text(out, event)?;
    }
    Ok(())
}

/// Appends the text of a text node; nothing else has one.
fn append_text(out: &mut Vec<u8>, event: &Event) -> Result<(), AllocError>
    ensures text { OnOk result (out.new.items ≡ out.old.items ++ own_text event.now) }
    ensures refused { OnErr result (out.new.items ≡ out.old.items) }
    ensures utf8 { IsUtf8 out.old.items → IsUtf8 out.new.items }
{
    match event {
        Event::Chars(text) => out.extend_from_slice(text.as_str().as_bytes()),
        _ => Ok(()),
    }
}
