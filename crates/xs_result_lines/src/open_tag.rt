//! The start tag that is open, to which attributes and namespace nodes may be added.
ghost use Rattle.std.specs.Prelude.{◌≡◌, ◌∷◌, ◌++◌, [], true, OnOk, length, take};
ghost use Rattle.std.specs.Str.{IsUtf8};
ghost use Rattle.xs_trace.specs.declared.event.Event.TheVariants as event_of;
ghost use Rattle.xs_result_lines.specs.Bindings.{is_in_tag};
ghost use Rattle.xs_result_lines.specs.Lines.{bytes_of, lines, open_after};
ghost use Rattle.xs_result_lines.specs.steps.Pending.{added_to};

use crate::writer::PyxWriter;
use std::alloc::{AllocError, Global};
use std::marker::Model;
use xs_trace::event::{Event, Label};

/// The events of a start tag as they came, which are lent; none where no start tag is open.
/// Contracts see those that a builder of `xs_result` makes of them.
#[derive(Drop)]
pub(crate) struct OpenTag<'e> {
    events: Vec<&'e Event>,
}

impl<'e> Model for OpenTag<'e> {
    ghost use Rattle.std.specs.Prelude.{List};
    ghost use Rattle.xs_trace.specs.declared.event.Event.{Event};
    ghost use Rattle.xs_result_lines.specs.steps.Pending.{IsAlone, begun};

    ghost Value = { List Event };

    ghost view = { λ t. (begun t.events.items).tag };

    ghost invariant = { λ t. IsAlone (begun t.events.items) };
}

impl<'e> OpenTag<'e> {
    /// No start tag is open.
    pub(crate) fn new(alloc: Global) -> OpenTag<'e>
        ensures { result ≡ [] }
    {
        OpenTag {
            events: Vec::new(alloc),
        }
    }

    /// An element begins.
    pub(crate) fn begin(&mut self, event: &'e Event, name: &Label) -> Result<(), AllocError>
        requires start { event.now ≡ event_of.Start name.now }
        requires empty { self.old ≡ [] }
        ensures { OnOk result (self.new ≡ event_of.Start name.now ∷ []) }
    {
        let _name = name;
        self.events.push(event)?;
        Ok(())
    }

    /// A namespace node or an attribute, where a start tag is open.
    pub(crate) fn add(&mut self, event: &'e Event) -> Result<(), AllocError>
        requires inside { is_in_tag event.now ≡ true }
        ensures { OnOk result (self.new ≡ added_to self.old event.now) }
    {
        if self.events.is_empty() {
            return Ok(());
        }
        self.events.push(event)?;
        Ok(())
    }

    /// Writes it, if it is open. Then none is.
    pub(crate) fn write(
        &mut self,
        writer: &mut PyxWriter,
        out: &mut Vec<u8>,
    ) -> Result<(), AllocError>
        ensures state { OnOk result (self.new ≡ []) }
        ensures written { OnOk result
            (out.new.items ≡ out.old.items ++ bytes_of (lines writer.old self.old)) }
        ensures opened { OnOk result (writer.new ≡ open_after writer.old self.old) }
        ensures front { take (length out.old.items) out.new.items ≡ out.old.items }
        ensures utf8 { IsUtf8 out.old.items → IsUtf8 out.new.items }
    {
        if self.events.is_empty() {
            return Ok(());
        }
        writer.tag(out, self.events.as_slice())?;
        self.events.clear();
        Ok(())
    }
}
