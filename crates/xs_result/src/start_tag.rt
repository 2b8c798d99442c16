//! The start tag that is open, to which attributes and namespace nodes may be added.

ghost use Rattle.std.specs.Prelude.{◌≡◌, ◌++◌, ◌∷◌, [], ℕ, IfOk, List, None, OnErr, OnOk, Some};
ghost use Rattle.std.specs.Prelude.{false, if◌then◌else◌};
ghost use Rattle.xs_result.specs.Building.{is_open};
ghost use Rattle.xs_result.specs.Places.{has_parts, is_attribute, place_in, place_of};
ghost use Rattle.xs_result.specs.Places.{revalued, with_attribute};
ghost use Rattle.xs_trace.specs.Label.{Label};

use indexmap::IndexMap;
use std::alloc::{AllocError, Global};
use std::marker::Model;
use xs_text::TextBuf;
use xs_trace::event::{Event, Label};

/// The local part and the namespace URI of a name (Namespaces in XML 1.0, 2.1): the local part
/// first, since by it names mostly differ.
type Expanded<'e> = (&'e str, &'e str);

/// A name, and the place of the attribute of this name.
type Placed<'e> = (Expanded<'e>, usize);

/// The most names that are gone over one after another, which takes less time than a hash.
const FEW: usize = 8;

/// How many others are forgotten in place, so that their room is kept for the next start tag.
const MANY: usize = 16;

/// The events of a start tag: the start of the element, and what was added to it. It is empty where
/// no start tag is open. Contracts see it as its events.
#[derive(Drop)]
pub(crate) struct StartTag<'e> {
    events: Vec<Event>,
    /// The places of its first few attributes.
    few: Vec<Placed<'e>>,
    /// Those of the others.
    others: IndexMap<Expanded<'e>, usize>,
}

impl<'e> Model for StartTag<'e> {
    ghost use Rattle.std.specs.Prelude.{◌≡◌, ◌++◌, ℕ, List};
    ghost use Rattle.xs_result.specs.Places.{place_in, place_of};
    ghost use Rattle.xs_trace.specs.declared.event.Event.{Event};

    ghost Value = { List Event };

    ghost view = { λ t. t.events.items };

    ghost invariant = { λ t. (uri local : List ℕ)
        → place_in (t.few.items ++ t.others.entries) uri local
        ≡ place_of uri local t.events.items };
}

impl<'e> StartTag<'e> {
    /// No start tag is open.
    pub(crate) fn new(alloc: Global) -> StartTag<'e>
        ensures { result ≡ [] }
    {
        StartTag {
            events: Vec::new(alloc),
            few: Vec::new(alloc),
            others: IndexMap::new(alloc),
        }
    }

    /// Whether a start tag is open.
    pub(crate) fn is_open(&self) -> bool
        ensures { result ≡ is_open self.now }
    {
        !self.events.is_empty()
    }

    /// The start of an element, or a namespace node of the one that is open.
    pub(crate) fn push(&mut self, event: Event) -> Result<(), AllocError>
        requires { is_attribute event ≡ false }
        ensures { OnOk result (self.new ≡ self.old ++ event ∷ []) }
    {
        self.events.push(event)?;
        Ok(())
    }

    /// An attribute of the element that is open: where it has one of this name already, that one
    /// gets the value (XSLT 1.0, 7.1.3).
    pub(crate) fn put(&mut self, name: &'e Label, value: &TextBuf) -> Result<(), AllocError>
        ensures { OnOk result (self.new ≡ with_attribute name.now value.now self.old) }
    {
        match self.place(name) {
            Some(place) => self.replace(place, value),
            None => self.add(name, value),
        }
    }

    /// The place of the attribute of a name.
    fn place(&self, name: &Label) -> Option<usize>
        ensures { result ≡ place_of name.now.uri name.now.local self.now }
    {
        match place_among(self.few.as_slice(), name) {
            Some(place) => Some(place),
            None => place_beyond(&self.others, name),
        }
    }

    /// Gives the attribute at a place, which is the first of a name, another value.
    fn replace(&mut self, place: usize, value: &TextBuf) -> Result<(), AllocError>
        requires first { (name : Label) × (place_of name.uri name.local self.old ≡ Some place) }
        ensures { OnOk result ((name : Label) → place_of name.uri name.local self.old ≡ Some place
            → self.new ≡ with_attribute name value.now self.old) }
    {
        let event = with_value(&self.events[place], value)?;
        self.events[place] = event;
        Ok(())
    }

    /// An attribute of a name that it does not have.
    fn add(&mut self, name: &'e Label, value: &TextBuf) -> Result<(), AllocError>
        requires new { place_of name.now.uri name.now.local self.old ≡ None }
        ensures { OnOk result (self.new ≡ with_attribute name.now value.now self.old) }
    {
        let event = Event::Attr {
            name: name.copy()?,
            value: value.copy()?,
        };
        let place = self.events.len();
        self.events.push(event)?;
        let expanded = (name.local(), name.uri());
        match keep(&mut self.few, &mut self.others, expanded, place) {
            Ok(()) => Ok(()),
            Err(_refused) => {
                let _ = self.events.pop();
                Err(AllocError)
            }
        }
    }

    /// Ends the start tag, and moves what it has to the end of these events.
    pub(crate) fn close(&mut self, alloc: Global, events: &mut Vec<Event>) -> Result<(), AllocError>
        ensures moved { OnOk result (events.new.items ≡ events.old.items ++ self.old) }
        ensures empty { OnOk result (self.new ≡ []) }
    {
        events.append(&mut self.events)?;
        self.few.clear();
        forget(alloc, &mut self.others);
        Ok(())
    }
}

/// The place that names have for one of them, by going over them.
fn place_among(names: &[Placed<'_>], name: &Label) -> Option<usize>
    ensures { result ≡ place_in names.now name.now.uri name.now.local }
{
    for placed in names {
        if has_parts(name, &placed.0) {
            return Some(placed.1);
        }
    }
    None
}

/// The place that a map has for a name.
fn place_beyond(others: &IndexMap<Expanded<'_>, usize>, name: &Label) -> Option<usize>
    ensures { result ≡ place_in others.now.entries name.now.uri name.now.local }
{
    if others.is_empty() {
        return None;
    }
    others.get(&(name.local(), name.uri())).copied()
}

/// Whether a name has these two parts.
fn has_parts(name: &Label, parts: &Expanded<'_>) -> bool
    ensures { result ≡ has_parts name.now.uri name.now.local parts.now }
{
    name.local() == parts.0 && name.uri() == parts.1
}

/// Keeps the place of the attribute of a new name, among the first few or the others.
fn keep<'e>(
    few: &mut Vec<Placed<'e>>,
    others: &mut IndexMap<Expanded<'e>, usize>,
    name: Expanded<'e>,
    place: usize,
) -> Result<(), AllocError>
    requires new { place_in (few.old.items ++ others.old.entries) name.1.now name.0.now ≡ None }
    ensures kept { OnOk result ((uri local : List ℕ)
        → place_in (few.new.items ++ others.new.entries) uri local
        ≡ (if has_parts uri local name.entry then Some place
        else place_in (few.old.items ++ others.old.entries) uri local)) }
    ensures few { OnErr result (few.new.items ≡ few.old.items) }
    ensures others { OnErr result (others.new.entries ≡ others.old.entries) }
{
    if others.is_empty() && few.len() < FEW {
        few.push((name, place))?;
        return Ok(());
    }
    others.insert(name, place)?;
    Ok(())
}

/// Forgets all names.
fn forget<'e>(alloc: Global, others: &mut IndexMap<Expanded<'e>, usize>)
    ensures { others.new.entries ≡ [] }
{
    if others.is_empty() {
        return;
    }
    if others.len() > MANY {
        let _many = std::mem::replace(others, IndexMap::new(alloc));
    } else {
        others.clear();
    }
}

/// An attribute with another value; any other event as it is.
fn with_value(event: &Event, value: &TextBuf) -> Result<Event, AllocError>
    ensures { IfOk result (λ copy. copy ≡ revalued value.now event.now) }
{
    match event {
        Event::Attr { name, .. } => Ok(Event::Attr {
            name: name.copy()?,
            value: value.copy()?,
        }),
        Event::Start(_) => event.copy(),
        Event::Space { .. } => event.copy(),
        Event::Chars(_) => event.copy(),
        Event::End => event.copy(),
        Event::Comment(_) => event.copy(),
        Event::Pi { .. } => event.copy(),
    }
}
