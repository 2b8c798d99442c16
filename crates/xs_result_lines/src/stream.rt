//! A result that is written while its events come.
ghost use Rattle.std.specs.Prelude.{◌≡◌, ◌∷◌, ◌++◌, [], ℕ, IfOk, List, OnOk, length, take};
ghost use Rattle.std.specs.Str.{IsUtf8};
ghost use Rattle.xs_trace.specs.declared.event.Event.{Event};
ghost use Rattle.xs_result_lines.specs.Lines.{pyx};
ghost use Rattle.xs_result_lines.specs.Stream.{HasTaken};
ghost use Rattle.xs_result_lines.specs.Kept.{kept};
ghost use Rattle.xs_result_lines.specs.Keeping.{IsTaken};

use crate::pending::Pending;
use crate::writer::PyxWriter;
use std::alloc::{AllocError, Global};
use xs_trace::event::Event;

/// A result of which is written what stays for good. The last start tag and the last text, to which
/// more may be added, are kept.
#[derive(Drop)]
pub struct PyxStream<'e> {
    pub(crate) pending: Pending<'e>,
    pub(crate) writer: PyxWriter,
}

impl<'e> PyxStream<'e> {
    /// Before the first event.
    pub fn new(alloc: Global) -> Result<PyxStream<'e>, AllocError>
        ensures { IfOk result (λ stream. (old : List ℕ)
            → HasTaken stream old old []) }
    {
        Ok(PyxStream {
            pending: Pending::new(alloc),
            writer: PyxWriter::new(alloc)?,
        })
    }

    /// Takes an event, and appends the lines of what stays for good by now. After a refusal some of
    /// them may be there.
    pub fn take(self, out: &mut Vec<u8>, event: &'e Event) -> Result<PyxStream<'e>, AllocError>
        ensures taken { IfOk result (λ stream. (old : List ℕ) (es : List Event)
            → HasTaken self.entry old out.old.items es
            → HasTaken stream old out.new.items (es ++ event.now ∷ [])) }
        ensures kept { take (length out.old.items) out.new.items ≡ out.old.items }
        ensures utf8 { IsUtf8 out.old.items → IsUtf8 out.new.items }
    {
        let PyxStream {
            mut pending,
            mut writer,
        } = self;
        take_event(&mut pending, &mut writer, out, event)?;
        Ok(PyxStream { pending, writer })
    }

    /// Adds an event, and appends the lines of what stays for good by now. After a refusal some of
    /// them may be there.
    #[inline(always)]
    pub fn add(&mut self, out: &mut Vec<u8>, event: &'e Event) -> Result<(), AllocError>
        ensures taken { OnOk result ((old : List ℕ) (es : List Event)
            → HasTaken self.old old out.old.items es
            → HasTaken self.new old out.new.items (es ++ event.now ∷ [])) }
        ensures kept { take (length out.old.items) out.new.items ≡ out.old.items }
        ensures utf8 { IsUtf8 out.old.items → IsUtf8 out.new.items }
    {
        take_event(&mut self.pending, &mut self.writer, out, event)
    }

    /// Appends the lines of the rest. After a refusal some of them may be there.
    pub fn finish(self, out: &mut Vec<u8>) -> Result<(), AllocError>
        ensures written { OnOk result ((old : List ℕ) (es : List Event)
            → HasTaken self.entry old out.old.items es
            → out.new.items ≡ old ++ pyx es) }
        ensures kept { take (length out.old.items) out.new.items ≡ out.old.items }
        ensures utf8 { IsUtf8 out.old.items → IsUtf8 out.new.items }
    {
        let PyxStream {
            mut pending,
            mut writer,
        } = self;
        pending.flush(&mut writer, out)
    }
}

/// Takes an event, and appends the lines of what stays for good by now. After a refusal some of
/// them may be there.
pub(crate) fn take_event<'e>(
    pending: &mut Pending<'e>,
    writer: &mut PyxWriter,
    out: &mut Vec<u8>,
    event: &'e Event,
) -> Result<(), AllocError>
    ensures taken { OnOk result ((old : List ℕ) (es : List Event)
        → IsTaken (kept pending.old) writer.old old out.old.items es
        → IsTaken (kept pending.new) writer.new old out.new.items (es ++ event.now ∷ [])) }
    ensures kept { take (length out.old.items) out.new.items ≡ out.old.items }
    ensures utf8 { IsUtf8 out.old.items → IsUtf8 out.new.items }
{
    pending.take(writer, out, event)?;
    Ok(())
}
