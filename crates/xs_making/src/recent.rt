//! Names, namespace nodes and values that are put again and again, which share their texts.
ghost use Rattle.std.specs.Prelude.{◌≡◌, true, IfOk, IfSome};
ghost use Rattle.xs_trace.specs.declared.event.Event.TheVariants as event_of;
ghost use Rattle.xs_making.specs.Labels.{put_label};
ghost use Rattle.xs_making.specs.steps.Plain.{IsPlain, IsPlainName};

use crate::compared::is_text;
use crate::labels::{put_label, put_prefix};
use crate::plain_names::PlainName;
use std::alloc::{AllocError, Global};
use xs_text::TextBuf;
use xs_trace::event::{Event, Label};

/// How many names are kept; so many namespace nodes and values too.
const SLOTS: usize = 32;

/// The most bytes of a value that is kept: longer ones seldom recur.
const SHORT_VALUE: usize = 16;

/// A namespace node that was put.
#[derive(Drop)]
struct RecentSpace {
    prefix: TextBuf,
    uri: TextBuf,
}

impl RecentSpace {
    /// Whether it has these texts.
    fn is(&self, prefix: &str, uri: &str) -> bool
        ensures event { result ≡ true → event_of.Space self.now.prefix self.now.uri
            ≡ event_of.Space prefix.now uri.now }
        ensures prefix { result ≡ true → self.now.prefix ≡ prefix.now }
        ensures uri { result ≡ true → self.now.uri ≡ uri.now }
    {
        is_text(self.prefix.as_str(), prefix) && is_text(self.uri.as_str(), uri)
    }

    /// The event that puts it.
    fn event(&self) -> Result<Event, AllocError>
        ensures { IfOk result (λ event. event ≡ event_of.Space self.now.prefix self.now.uri) }
    {
        Ok(Event::Space {
            prefix: self.prefix.copy()?,
            uri: self.uri.copy()?,
        })
    }

    /// A name with its prefix and its URI.
    fn label(&self, alloc: Global, local: &str) -> Result<Label, AllocError>
        ensures { IfOk result (λ label. label
            ≡ record { uri = self.now.uri; local = local.now; prefix = self.now.prefix }) }
    {
        let uri = self.uri.copy()?;
        let local = TextBuf::of(alloc, local)?;
        let prefix = self.prefix.copy()?;
        Label::of(alloc, uri, local, prefix)
    }
}

/// The names, namespace nodes and values that were put last: one that is put again shares the texts
/// of the first, and takes no memory of its own.
#[derive(Drop)]
pub struct RecentLabels {
    alloc: Global,
    /// A name lies in the slot that its local part chooses. Before the first name there is no slot.
    slots: Vec<Option<Label>>,
    /// The same for names of attributes without a prefix, each with its text as the local part.
    plain: Vec<Option<PlainName>>,
    /// The same for namespace nodes, by their prefixes.
    spaces: Vec<Option<RecentSpace>>,
    /// The same for short values of attributes.
    values: Vec<Option<TextBuf>>,
}

impl RecentLabels {
    /// With no name yet.
    pub fn new(alloc: Global) -> RecentLabels {
        RecentLabels {
            alloc,
            slots: Vec::new(alloc),
            plain: Vec::new(alloc),
            spaces: Vec::new(alloc),
            values: Vec::new(alloc),
        }
    }

    /// Where names are stored.
    pub fn allocator(&self) -> Global {
        self.alloc
    }

    /// A name as it is put: with the prefix that fits its namespace.
    pub fn label(&mut self, uri: &str, local: &str, prefix: &str) -> Result<Label, AllocError>
        ensures label { IfOk result (λ label. label ≡ put_label uri.now local.now prefix.now) }
    {
        let slot = slot_of(local);
        if let Some(Some(label)) = self.slots.get(slot) {
            if is_name(label, uri, local, put_prefix(uri, prefix)) {
                return label.copy();
            }
        }
        let label = self.new_label(uri, local, prefix)?;
        self.keep(slot, label.copy()?)?;
        Ok(label)
    }

    /// A name as it is put, which shares the texts of a namespace node that was put.
    fn new_label(&self, uri: &str, local: &str, prefix: &str) -> Result<Label, AllocError>
        ensures { IfOk result (λ label. label ≡ put_label uri.now local.now prefix.now) }
    {
        let own = put_prefix(uri, prefix);
        if let Some(Some(space)) = self.spaces.get(slot_of(own)) {
            if space.is(own, uri) {
                return space.label(self.alloc, local);
            }
        }
        put_label(self.alloc, uri, local, prefix)
    }

    /// The event that puts a namespace node.
    pub(crate) fn space(&mut self, prefix: &str, uri: &str) -> Result<Event, AllocError>
        ensures { IfOk result (λ event. event ≡ event_of.Space prefix.now uri.now) }
    {
        let slot = slot_of(prefix);
        if let Some(Some(space)) = self.spaces.get(slot) {
            if space.is(prefix, uri) {
                return space.event();
            }
        }
        let space = RecentSpace {
            prefix: TextBuf::of(self.alloc, prefix)?,
            uri: TextBuf::of(self.alloc, uri)?,
        };
        let event = space.event()?;
        self.keep_space(slot, space)?;
        Ok(event)
    }

    /// The text of a value.
    pub(crate) fn value(&mut self, text: &str) -> Result<TextBuf, AllocError>
        ensures { IfOk result (λ value. value ≡ text.now) }
    {
        if text.len() > SHORT_VALUE {
            return TextBuf::of(self.alloc, text);
        }
        let slot = slot_of(text);
        if let Some(Some(value)) = self.values.get(slot) {
            if is_text(value.as_str(), text) {
                return value.copy();
            }
        }
        let value = TextBuf::of(self.alloc, text)?;
        self.keep_value(slot, value.copy()?)?;
        Ok(value)
    }

    /// The name of an attribute that a text is, if it was kept.
    #[inline(always)]
    pub(crate) fn plain(&self, text: &str) -> Result<Option<Label>, AllocError>
        ensures { IfOk result (λ found. IfSome found (λ name. IsPlain text.now name)) }
    {
        match self.plain.get(slot_of(text)) {
            Some(Some(kept)) => kept.name_of(text),
            Some(None) => Ok(None),
            None => Ok(None),
        }
    }

    /// Keeps the name of an attribute.
    pub(crate) fn keep_plain(&mut self, name: &Label) -> Result<(), AllocError>
        requires { IsPlainName name.now }
    {
        let slot = slot_of(name.local());
        for _ in self.plain.len()..SLOTS {
            self.plain.push(None)?;
        }
        let name = PlainName::of(name.copy()?);
        if let Some(kept) = self.plain.get_mut(slot) {
            *kept = Some(name);
        }
        Ok(())
    }

    /// Keeps a namespace node in a slot, in place of the one that was there.
    fn keep_space(&mut self, slot: usize, space: RecentSpace) -> Result<(), AllocError> {
        for _ in self.spaces.len()..SLOTS {
            self.spaces.push(None)?;
        }
        if let Some(kept) = self.spaces.get_mut(slot) {
            *kept = Some(space);
        }
        Ok(())
    }

    /// Keeps a value in a slot, in place of the one that was there.
    fn keep_value(&mut self, slot: usize, value: TextBuf) -> Result<(), AllocError> {
        for _ in self.values.len()..SLOTS {
            self.values.push(None)?;
        }
        if let Some(kept) = self.values.get_mut(slot) {
            *kept = Some(value);
        }
        Ok(())
    }

    /// Keeps a name in a slot, in place of the one that was there.
    fn keep(&mut self, slot: usize, label: Label) -> Result<(), AllocError> {
        for _ in self.slots.len()..SLOTS {
            self.slots.push(None)?;
        }
        if let Some(kept) = self.slots.get_mut(slot) {
            *kept = Some(label);
        }
        Ok(())
    }
}

/// The slot of a text: by its length and three of its bytes, so that the names of one document
/// seldom share one.
fn slot_of(text: &str) -> usize {
    let bytes = text.as_bytes();
    let len = bytes.len();
    if len == 0 {
        return 0;
    }
    let first = bytes[0] as usize;
    let middle = bytes[len / 2] as usize;
    let last = bytes[len - 1] as usize;
    (first * 3 + middle * 9 + last + len) % SLOTS
}

/// Whether a name has these texts.
pub(crate) fn is_name(label: &Label, uri: &str, local: &str, prefix: &str) -> bool
    ensures { result ≡ true
        → label.now ≡ record { uri = uri.now; local = local.now; prefix = prefix.now } }
{
    is_text(label.local(), local) && is_text(label.uri(), uri) && is_text(label.prefix(), prefix)
}
