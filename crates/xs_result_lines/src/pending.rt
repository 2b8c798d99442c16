//! What is kept of a result until it stays for good: the start tag that is open, to which more may
//! be added, and the text before the next event, which may go on.
ghost use Rattle.std.specs.Prelude.{◌≡◌, ◌++◌, [], false, true, OnOk, length, take};
ghost use Rattle.std.specs.Str.{IsUtf8};
ghost use Rattle.xs_result.specs.Building.{behind, began, ended, flushed, forgotten};
ghost use Rattle.xs_result.specs.Building.{if_text, nothing, taken};
ghost use Rattle.xs_trace.specs.declared.event.Event.TheVariants as event_of;
ghost use Rattle.xs_result_lines.specs.Bindings.{is_in_tag};
ghost use Rattle.xs_result_lines.specs.Lines.{bytes_of, lines, open_after};
ghost use Rattle.xs_result_lines.specs.Kept.{kept};

use crate::open_tag::OpenTag;
use crate::open_text::OpenText;
use crate::writer::PyxWriter;
use std::alloc::{AllocError, Global};
use xs_text::Characters;
use xs_trace::event::{Event, Label};

/// The events that came and are not written yet, which are lent and not copied.
#[derive(Drop)]
pub(crate) struct Pending<'e> {
    tag: OpenTag<'e>,
    text: OpenText<'e>,
    /// How many elements are open.
    depth: u64,
}

impl<'e> Pending<'e> {
    /// Before the first event.
    pub(crate) fn new(alloc: Global) -> Pending<'e>
        ensures { kept result ≡ nothing }
    {
        Pending {
            tag: OpenTag::new(alloc),
            text: OpenText::new(alloc),
            depth: 0,
        }
    }

    /// Takes an event, and writes what stays for good by now.
    #[tactic(auto, unfolding(xs_result::specs::Building::taken))]
    pub(crate) fn take(
        &mut self,
        writer: &mut PyxWriter,
        out: &mut Vec<u8>,
        event: &'e Event,
    ) -> Result<(), AllocError>
        ensures state { OnOk result (kept self.new ≡ forgotten (taken (kept self.old) event.now)) }
        ensures written { OnOk result (out.new.items ≡ out.old.items
            ++ bytes_of (lines writer.old (taken (kept self.old) event.now).closed)) }
        ensures opened { OnOk result
            (writer.new ≡ open_after writer.old (taken (kept self.old) event.now).closed) }
        ensures front { take (length out.old.items) out.new.items ≡ out.old.items }
        ensures utf8 { IsUtf8 out.old.items → IsUtf8 out.new.items }
    {
        match event {
            Event::Start(name) => self.start(writer, out, event, name),
            Event::Space { .. } => self.add(writer, out, event),
            Event::Attr { .. } => self.add(writer, out, event),
            Event::Chars(text) => self.chars(writer, out, text),
            Event::End => self.end(writer, out, event),
            Event::Comment(_) => self.child(writer, out, event),
            Event::Pi { .. } => self.child(writer, out, event),
        }
    }

    /// An element begins.
    fn start(
        &mut self,
        writer: &mut PyxWriter,
        out: &mut Vec<u8>,
        event: &'e Event,
        name: &Label,
    ) -> Result<(), AllocError>
        requires start { event.now ≡ event_of.Start name.now }
        ensures state { OnOk result (kept self.new ≡ forgotten (began name.now (kept self.old))) }
        ensures written { OnOk result (out.new.items
            ≡ out.old.items ++ bytes_of (lines writer.old (flushed (kept self.old)))) }
        ensures opened { OnOk result (writer.new
            ≡ open_after writer.old (flushed (kept self.old))) }
        ensures front { take (length out.old.items) out.new.items ≡ out.old.items }
        ensures utf8 { IsUtf8 out.old.items → IsUtf8 out.new.items }
    {
        self.flush(writer, out)?;
        self.tag.begin(event, name)?;
        self.depth = self.depth.checked_add(1).ok_or(AllocError)?;
        Ok(())
    }

    /// A namespace node or an attribute, which stays where a start tag is open. Nothing is written.
    fn add(
        &mut self,
        writer: &mut PyxWriter,
        out: &mut Vec<u8>,
        event: &'e Event,
    ) -> Result<(), AllocError>
        requires inside { is_in_tag event.now ≡ true }
        ensures state { OnOk result (kept self.new ≡ forgotten (taken (kept self.old) event.now)) }
        ensures written { OnOk result (out.new.items ≡ out.old.items
            ++ bytes_of (lines writer.old (taken (kept self.old) event.now).closed)) }
        ensures opened { OnOk result
            (writer.new ≡ open_after writer.old (taken (kept self.old) event.now).closed) }
        ensures front { take (length out.old.items) out.new.items ≡ out.old.items }
        ensures utf8 { IsUtf8 out.old.items → IsUtf8 out.new.items }
    {
        let _writer = writer;
        let _out = out;
        self.tag.add(event)
    }

    /// A text, which goes on the one before.
    #[tactic(auto, unfolding(crate::specs::steps::Unfolding::event_by_event))]
    fn chars(
        &mut self,
        writer: &mut PyxWriter,
        out: &mut Vec<u8>,
        text: &'e Characters,
    ) -> Result<(), AllocError>
        ensures state { OnOk result (kept self.new ≡ forgotten (if_text text.now (kept self.old))) }
        ensures written { OnOk result (out.new.items ≡ out.old.items
            ++ bytes_of (lines writer.old (if_text text.now (kept self.old)).closed)) }
        ensures opened { OnOk result
            (writer.new ≡ open_after writer.old (if_text text.now (kept self.old)).closed) }
        ensures front { take (length out.old.items) out.new.items ≡ out.old.items }
        ensures utf8 { IsUtf8 out.old.items → IsUtf8 out.new.items }
    {
        if text.is_empty() {
            return Ok(());
        }
        self.tag.write(writer, out)?;
        self.text.push(text)
    }

    /// An end, which stays where an element is open.
    #[tactic(auto, using(crate::proofs::PendingLemmas::ended_none, crate::proofs::PendingLemmas::ended_some), unfolding(crate::specs::steps::Unfolding::event_by_event))]
    fn end(
        &mut self,
        writer: &mut PyxWriter,
        out: &mut Vec<u8>,
        event: &Event,
    ) -> Result<(), AllocError>
        requires end { event.now ≡ event_of.End }
        ensures state { OnOk result
            (kept self.new ≡ forgotten (ended self.old.depth (kept self.old))) }
        ensures written { OnOk result (out.new.items ≡ out.old.items
            ++ bytes_of (lines writer.old (ended self.old.depth (kept self.old)).closed)) }
        ensures opened { OnOk result
            (writer.new ≡ open_after writer.old (ended self.old.depth (kept self.old)).closed) }
        ensures front { take (length out.old.items) out.new.items ≡ out.old.items }
        ensures utf8 { IsUtf8 out.old.items → IsUtf8 out.new.items }
    {
        if self.depth == 0 {
            return Ok(());
        }
        self.child(writer, out, event)?;
        self.depth -= 1;
        Ok(())
    }

    /// An event after all that came.
    fn child(
        &mut self,
        writer: &mut PyxWriter,
        out: &mut Vec<u8>,
        event: &Event,
    ) -> Result<(), AllocError>
        requires outside { is_in_tag event.now ≡ false }
        ensures tag { OnOk result (self.new.tag ≡ []) }
        ensures text { OnOk result (self.new.text ≡ []) }
        ensures depth { OnOk result (self.new.depth ≡ self.old.depth) }
        ensures written { OnOk result (out.new.items ≡ out.old.items
            ++ bytes_of (lines writer.old (behind event.now (kept self.old)).closed)) }
        ensures opened { OnOk result
            (writer.new ≡ open_after writer.old (behind event.now (kept self.old)).closed) }
        ensures front { take (length out.old.items) out.new.items ≡ out.old.items }
        ensures utf8 { IsUtf8 out.old.items → IsUtf8 out.new.items }
    {
        self.flush(writer, out)?;
        writer.one(out, event)?;
        Ok(())
    }

    /// Writes all that is kept.
    pub(crate) fn flush(
        &mut self,
        writer: &mut PyxWriter,
        out: &mut Vec<u8>,
    ) -> Result<(), AllocError>
        ensures tag { OnOk result (self.new.tag ≡ []) }
        ensures text { OnOk result (self.new.text ≡ []) }
        ensures depth { OnOk result (self.new.depth ≡ self.old.depth) }
        ensures written { OnOk result (out.new.items
            ≡ out.old.items ++ bytes_of (lines writer.old (flushed (kept self.old)))) }
        ensures opened { OnOk result (writer.new
            ≡ open_after writer.old (flushed (kept self.old))) }
        ensures front { take (length out.old.items) out.new.items ≡ out.old.items }
        ensures utf8 { IsUtf8 out.old.items → IsUtf8 out.new.items }
    {
        self.tag.write(writer, out)?;
        self.text.write(out)?;
        Ok(())
    }
}
