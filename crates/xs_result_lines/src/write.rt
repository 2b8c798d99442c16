//! A result as the lines of a document.
ghost use Rattle.std.specs.Prelude.{◌≡◌, ◌++◌, ℕ, IfOk, List, OnErr, OnOk, length, map, take};
ghost use Rattle.std.specs.Iterator.{Drains, IsFinite};
ghost use Rattle.std.specs.Str.{IsUtf8};
ghost use Rattle.xs_trace.specs.declared.event.Event.{Event};
ghost use Rattle.xs_result_lines.specs.Lines.{pyx};
ghost use Rattle.xs_result_lines.specs.Stream.{HasTaken};
ghost use denote.Ref.{Bor};

use crate::stream::{PyxStream, take_event};
use std::alloc::AllocError;
use xs_trace::event::Event;

/// Appends the lines of what stays of the events that an iterator gives. After a refusal `out` is
/// as it was.
pub fn write_pyx<'e, I: Iterator<Item = &'e Event> + Drop>(
    out: &mut Vec<u8>,
    events: I,
) -> Result<(), AllocError>
    requires can { I.can_next events }
    requires ends { IsFinite (I.remaining events) }
    ensures lines { OnOk result ((es : List (Bor Event)) × Drains I.next_gives events es
        × (out.new.items ≡ out.old.items ++ pyx (map (λ e. e.now) es))) }
    ensures utf8 { IsUtf8 out.old.items → IsUtf8 out.new.items }
    ensures refused { OnErr result (out.new.items ≡ out.old.items) }
{
    let before = out.len();
    match append_pyx(out, events) {
        Ok(()) => Ok(()),
        Err(error) => {
            out.truncate(before);
            Err(error)
        }
    }
}

/// Appends their lines; after a refusal some of them.
fn append_pyx<'e, I: Iterator<Item = &'e Event> + Drop>(
    out: &mut Vec<u8>,
    events: I,
) -> Result<(), AllocError>
    requires can { I.can_next events }
    requires ends { IsFinite (I.remaining events) }
    ensures lines { OnOk result ((es : List (Bor Event)) × Drains I.next_gives events es
        × (out.new.items ≡ out.old.items ++ pyx (map (λ e. e.now) es))) }
    ensures kept { take (length out.old.items) out.new.items ≡ out.old.items }
    ensures utf8 { IsUtf8 out.old.items → IsUtf8 out.new.items }
{
    let stream = take_all(out, events)?;
    stream.finish(out)
}

/// A stream that took them all.
fn take_all<'e, I: Iterator<Item = &'e Event> + Drop>(
    out: &mut Vec<u8>,
    events: I,
) -> Result<PyxStream<'e>, AllocError>
    requires can { I.can_next events }
    requires ends { IsFinite (I.remaining events) }
    ensures taken { (es : List (Bor Event))
        × IfOk result (λ stream. HasTaken stream out.old.items out.new.items
        (map (λ e. e.now) es))
        × OnOk result (Drains I.next_gives events es) }
    ensures kept { take (length out.old.items) out.new.items ≡ out.old.items }
    ensures utf8 { IsUtf8 out.old.items → IsUtf8 out.new.items }
{
    let stream = PyxStream::new(*out.allocator())?;
    let PyxStream {
        mut pending,
        mut writer,
    } = stream;
    for event in events {
        take_event(&mut pending, &mut writer, out, event)?;
    }
    Ok(PyxStream { pending, writer })
}
