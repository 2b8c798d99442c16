//! The events that stay, as one comes after the other.

ghost use Rattle.std.specs.Prelude.{◌≡◌, ◌++◌, ◌∷◌, [], IfOk, OnOk};
ghost use Rattle.xs_result.specs.Building.{began, behind, ended, flushed};
ghost use Rattle.xs_result.specs.Building.{if_open, if_text, nothing, tagged, taken};
ghost use Rattle.xs_result.specs.Places.{with_attribute};
ghost use Rattle.xs_result.specs.steps.Views.{state};
ghost use Rattle.xs_trace.specs.declared.event.Event.TheVariants.{Space};

use crate::pending::PendingText;
use crate::start_tag::StartTag;
use std::alloc::{AllocError, Global};
use xs_text::{Characters, TextBuf};
use xs_trace::event::{Event, Fragment, Label};

/// What stays of the events that came.
#[derive(Drop)]
pub(crate) struct Builder<'e> {
    alloc: Global,
    /// What stays as it is.
    events: Vec<Event>,
    /// The start tag that is open, behind them.
    tag: StartTag<'e>,
    /// The text before the next event.
    text: PendingText,
    /// How many elements are open.
    depth: u64,
}

impl<'e> Builder<'e> {
    /// Before the first event.
    pub(crate) fn new(alloc: Global) -> Builder<'e>
        ensures { state result ≡ nothing }
    {
        Builder {
            alloc,
            events: Vec::new(alloc),
            tag: StartTag::new(alloc),
            text: PendingText::new(alloc),
            depth: 0,
        }
    }

    /// One event more.
    #[tactic(auto, unfolding(crate::specs::Building::taken))]
    pub(crate) fn take(&mut self, event: &'e Event) -> Result<(), AllocError>
        ensures { OnOk result (state self.new ≡ taken (state self.old) event.now) }
    {
        match event {
            Event::Start(name) => self.start(name),
            Event::Space { prefix, uri } => self.space(prefix, uri),
            Event::Attr { name, value } => self.attribute(name, value),
            Event::Chars(text) => self.chars(text),
            Event::End => self.end(),
            Event::Comment(_) => self.child(event),
            Event::Pi { .. } => self.child(event),
        }
    }

    /// An element begins.
    fn start(&mut self, name: &Label) -> Result<(), AllocError>
        ensures { OnOk result (state self.new ≡ began name.now (state self.old)) }
    {
        self.flush()?;
        self.tag.push(Event::Start(name.copy()?))?;
        self.depth = self.depth.checked_add(1).ok_or(AllocError)?;
        Ok(())
    }

    /// A namespace node, which stays where a start tag is open.
    fn space(&mut self, prefix: &TextBuf, uri: &TextBuf) -> Result<(), AllocError>
        ensures { OnOk result (state self.new ≡ if_open (state self.old)
            (tagged ((state self.old).tag ++ Space prefix.now uri.now ∷ []) (state self.old))) }
    {
        if self.tag.is_open() {
            self.tag.push(Event::Space {
                prefix: prefix.copy()?,
                uri: uri.copy()?,
            })?;
        }
        Ok(())
    }

    /// An attribute, which stays where a start tag is open.
    fn attribute(&mut self, name: &'e Label, value: &TextBuf) -> Result<(), AllocError>
        ensures { OnOk result (state self.new ≡ if_open (state self.old)
            (tagged (with_attribute name.now value.now (state self.old).tag) (state self.old))) }
    {
        if self.tag.is_open() {
            self.tag.put(name, value)?;
        }
        Ok(())
    }

    /// A text, which goes on the one before.
    fn chars(&mut self, text: &Characters) -> Result<(), AllocError>
        ensures { OnOk result (state self.new ≡ if_text text.now (state self.old)) }
    {
        if text.is_empty() {
            return Ok(());
        }
        self.tag.close(self.alloc, &mut self.events)?;
        self.text.push(text)
    }

    /// An end, which stays where an element is open.
    fn end(&mut self) -> Result<(), AllocError>
        ensures { OnOk result (state self.new ≡ ended (state self.old).depth (state self.old)) }
    {
        if self.depth > 0 {
            self.flush()?;
            self.events.push(Event::End)?;
            self.depth -= 1;
        }
        Ok(())
    }

    /// A child that is no element and no text.
    fn child(&mut self, event: &Event) -> Result<(), AllocError>
        ensures { OnOk result (state self.new ≡ behind event.now (state self.old)) }
    {
        self.flush()?;
        self.events.push(event.copy()?)?;
        Ok(())
    }

    /// Ends the start tag and the text.
    #[tactic(auto, unfolding(crate::specs::Building::flushed))]
    fn flush(&mut self) -> Result<(), AllocError>
        ensures events { OnOk result (self.new.events.items ≡ flushed (state self.old)) }
        ensures tag { OnOk result (self.new.tag ≡ []) }
        ensures text { OnOk result (self.new.text ≡ []) }
        ensures depth { OnOk result (self.new.depth ≡ self.old.depth) }
    {
        self.tag.close(self.alloc, &mut self.events)?;
        if let Some(text) = self.text.end(self.alloc)? {
            self.events.push(Event::Chars(text))?;
        }
        Ok(())
    }

    /// All that stays.
    pub(crate) fn finish(mut self) -> Result<Fragment, AllocError>
        ensures { IfOk result (λ fragment. fragment ≡ flushed (state self.entry)) }
    {
        self.flush()?;
        Ok(Fragment::of(self.events))
    }
}
