//! The bindings that a start tag needs.
ghost use Rattle.std.specs.Prelude.{◌≡◌, ◌∷◌, [], false, IfOk, List, length, option_copied};
ghost use Rattle.std.specs.BTreeMap.{insert_entry};
ghost use Rattle.std.specs.List.{cons_option};
ghost use Rattle.xs_trace.specs.Label.{Label};
ghost use Rattle.xs_result_lines.specs.Bindings.{Binding, added, attribute_prefix, binds};
ghost use Rattle.xs_result_lines.specs.Bindings.{bindings_before, chosen_prefix, first_new};
ghost use Rattle.xs_result_lines.specs.Bindings.{is_in_tag, keeps_prefix, needs_prefix, new_from};
ghost use Rattle.xs_result_lines.specs.Bindings.{is_new, new_prefix, order_of_prefixes};
ghost use Rattle.xs_result_lines.specs.Bindings.{own_binding};
ghost use Rattle.xs_result_lines.specs.Bindings.{prefix_for, space_of};
ghost use Rattle.xs_result_lines.specs.Bindings.{spaces_in, uri_in, with_attribute, with_spaces};
ghost use Rattle.xs_result_lines.specs.steps.Bound.{keep_own, may_keep};
ghost use Rattle.xs_result_lines.specs.steps.InForce.{keeps_own};
ghost use Rattle.xs_result_lines.specs.steps.Pending.{lent};
ghost use Rattle.xs_result_lines.specs.steps.Tables.{AreBound};

use crate::least::noted;
use crate::names::new_prefix;
use crate::text_key::TextKey;
use std::alloc::{AllocError, Global};
use std::collections::BTreeMap;
use std::marker::Model;
use xs_text::{TextBuf, XML_URI};
use xs_trace::event::{Event, Label};

/// The bindings of a start tag. Contracts see them as a list, in the order of the prefixes.
#[derive(Drop)]
pub(crate) struct TagBindings {
    alloc: Global,
    entries: BTreeMap<TextKey, TextBuf>,
    /// The least prefix, except the empty one, that is bound to each URI.
    by_uri: BTreeMap<TextKey, TextBuf>,
    /// Each new prefix of a lower number is bound.
    next: u64,
}

impl Model for TagBindings {
    ghost use Rattle.std.specs.Prelude.{List};
    ghost use Rattle.xs_result_lines.specs.Bindings.{Binding};
    ghost use Rattle.xs_result_lines.specs.steps.Tables.{AreBound, HasLeast};

    ghost Value = { List Binding };

    ghost view = { λ m. m.entries.entries };

    ghost invariant = { λ m. AreBound m.entries.entries m.next
        × HasLeast m.by_uri.entries m.entries.entries };
}

impl TagBindings {
    /// The binding of an element's name, and those of its namespace nodes, among the events after
    /// its start, that bind another prefix.
    #[tactic(auto, unfolding(crate::specs::steps::Unfolding::space_by_space))]
    pub(crate) fn of(
        alloc: Global,
        name: &Label,
        added: &[Event],
    ) -> Result<TagBindings, AllocError>
        ensures { IfOk result (λ m. m ≡ bindings_before name.now added.now) }
    {
        let bindings = TagBindings::own(alloc, name)?;
        bindings.with_spaces(added)
    }

    /// The same, where the events are lent.
    #[tactic(auto, unfolding(crate::specs::steps::Unfolding::space_by_space))]
    pub(crate) fn lent(
        alloc: Global,
        name: &Label,
        added: &[&Event],
    ) -> Result<TagBindings, AllocError>
        ensures { IfOk result (λ m. m ≡ bindings_before name.now (lent added.now)) }
    {
        let bindings = TagBindings::own(alloc, name)?;
        bindings.with_lent_spaces(added)
    }

    /// The binding of an element's name.
    #[tactic(auto, unfolding(crate::specs::steps::Unfolding::space_by_space))]
    fn own(alloc: Global, name: &Label) -> Result<TagBindings, AllocError>
        ensures { IfOk result (λ m. m ≡ own_binding name.now) }
    {
        let prefix = TextBuf::of(alloc, name.prefix())?;
        let uri = TextBuf::of(alloc, name.uri())?;
        TagBindings::none(alloc).with(&prefix, &uri)
    }

    /// The bindings, in the order of the prefixes.
    pub(crate) fn entries(&self) -> &BTreeMap<TextKey, TextBuf>
        ensures { result.now.entries ≡ self.now }
    {
        &self.entries
    }

    /// Binds the prefix that an attribute is written with, and answers it.
    #[tactic(auto, unfolding(crate::specs::steps::Unfolding::one_attribute))]
    pub(crate) fn bind(mut self, name: &Label) -> Result<(TagBindings, TextBuf), AllocError>
        ensures { IfOk result (λ r. (r.0 ≡ with_attribute self name.now)
            × (r.1 ≡ attribute_prefix self name.now)) }
    {
        if !needs_prefix(name) {
            let prefix = TextBuf::of(self.alloc, name.prefix())?;
            return Ok((self, prefix));
        }
        let prefix = self.chosen_prefix(name)?;
        let uri = TextBuf::of(self.alloc, name.uri())?;
        let bindings = self.add(&prefix, &uri)?;
        Ok((bindings, prefix))
    }

    /// No binding.
    #[tactic(auto, unfolding(crate::specs::Bindings::uri_in, crate::specs::Bindings::prefix_for))]
    fn none(alloc: Global) -> TagBindings
        ensures { result ≡ [] }
    {
        TagBindings {
            alloc,
            entries: BTreeMap::new(alloc),
            by_uri: BTreeMap::new(alloc),
            next: 0,
        }
    }

    /// A binding more, of a prefix that has none.
    fn with(self, prefix: &TextBuf, uri: &TextBuf) -> Result<TagBindings, AllocError>
        requires { binds self prefix.now ≡ false }
        ensures { IfOk result (λ m. m ≡ insert_entry order_of_prefixes self prefix.now uri.now) }
    {
        let TagBindings {
            alloc,
            mut entries,
            by_uri,
            next,
        } = self;
        let by_uri = noted(by_uri, prefix, uri)?;
        let _ = entries.insert(TextKey::of(prefix)?, uri.copy()?)?;
        Ok(TagBindings {
            alloc,
            entries,
            by_uri,
            next,
        })
    }

    /// A binding more, unless the prefix has one.
    fn add(self, prefix: &TextBuf, uri: &TextBuf) -> Result<TagBindings, AllocError>
        ensures { IfOk result (λ m. m ≡ added self (prefix.now, uri.now)) }
    {
        if self.binds(prefix)? {
            return Ok(self);
        }
        self.with(prefix, uri)
    }

    /// The bindings of the namespace nodes of a start tag are added.
    #[tactic(auto, unfolding(crate::specs::steps::Unfolding::space_by_space))]
    fn with_spaces(self, added: &[Event]) -> Result<TagBindings, AllocError>
        ensures { IfOk result (λ m. m ≡ with_spaces self (spaces_in added.now)) }
    {
        let mut bindings = self;
        let mut rest = added;
        while let Some((event, more)) = rest.split_first() {
            if !is_in_tag(event) {
                return Ok(bindings);
            }
            bindings = bindings.with_space(event)?;
            rest = more;
        }
        Ok(bindings)
    }

    /// The same, where the events are lent.
    #[tactic(auto, unfolding(crate::specs::steps::Unfolding::space_by_space))]
    fn with_lent_spaces(self, added: &[&Event]) -> Result<TagBindings, AllocError>
        ensures { IfOk result (λ m. m ≡ with_spaces self (spaces_in (lent added.now))) }
    {
        let mut bindings = self;
        for event in added {
            if !is_in_tag(*event) {
                return Ok(bindings);
            }
            bindings = bindings.with_space(*event)?;
        }
        Ok(bindings)
    }

    /// The binding of a namespace node is added; no other event has one.
    #[tactic(auto, unfolding(crate::specs::Bindings::with_spaces))]
    fn with_space(self, event: &Event) -> Result<TagBindings, AllocError>
        ensures { IfOk result (λ m. (bs : List Binding)
            → with_spaces m bs ≡ with_spaces self (cons_option (space_of event.now) bs)) }
    {
        match event {
            Event::Space { prefix, uri } => self.add(prefix, uri),
            Event::Start(_) => Ok(self),
            Event::Attr { .. } => Ok(self),
            Event::Chars(_) => Ok(self),
            Event::End => Ok(self),
            Event::Comment(_) => Ok(self),
            Event::Pi { .. } => Ok(self),
        }
    }

    /// Whether each attribute of a start tag needs no prefix, or its own is bound to its URI.
    #[tactic(auto, unfolding(crate::specs::steps::Bound::keep_own))]
    pub(crate) fn keep_own(&self, added: &[&Event]) -> Result<bool, AllocError>
        ensures { IfOk result (λ keep. keep ≡ keep_own self.now (lent added.now)) }
    {
        for event in added {
            if !self.may_keep(*event)? {
                return Ok(false);
            }
        }
        Ok(true)
    }

    /// The same of one event: of any but an attribute it is so.
    fn may_keep(&self, event: &Event) -> Result<bool, AllocError>
        ensures { IfOk result (λ keeps. keeps ≡ may_keep self.now event.now) }
    {
        match event {
            Event::Attr { name, .. } => self.keeps_own(name),
            Event::Start(_) => Ok(true),
            Event::Space { .. } => Ok(true),
            Event::Chars(_) => Ok(true),
            Event::End => Ok(true),
            Event::Comment(_) => Ok(true),
            Event::Pi { .. } => Ok(true),
        }
    }

    /// Whether an attribute needs no prefix, or its own is bound to its URI.
    fn keeps_own(&self, name: &Label) -> Result<bool, AllocError>
        ensures { IfOk result (λ keeps. keeps ≡ keeps_own self.now name.now) }
    {
        if !needs_prefix(name) {
            return Ok(true);
        }
        if name.prefix().is_empty() {
            return Ok(false);
        }
        let key = TextKey::of_str(self.alloc, name.prefix())?;
        Ok(!self.is_new(&key, name.uri()))
    }

    /// Whether a prefix is bound to another URI, or to none.
    fn is_new(&self, prefix: &TextKey, uri: &str) -> bool
        ensures { result ≡ is_new self.now (prefix.now, uri.now) }
    {
        match self.uri_of(prefix) {
            Some(other) => other.as_str() != uri,
            None => !uri.is_empty(),
        }
    }

    /// The URI that a prefix is bound to.
    #[tactic(auto, unfolding(crate::specs::Bindings::uri_in))]
    fn uri_of(&self, prefix: &TextKey) -> Option<&TextBuf>
        ensures { option_copied result ≡ uri_in self.now prefix.now }
    {
        self.entries.get(prefix)
    }

    /// Whether a prefix is bound.
    fn binds(&self, prefix: &TextBuf) -> Result<bool, AllocError>
        ensures { IfOk result (λ is_bound. is_bound ≡ binds self.now prefix.now) }
    {
        let key = TextKey::of(prefix)?;
        Ok(self.uri_of(&key).is_some())
    }

    /// The prefix that an attribute in a namespace gets.
    fn chosen_prefix(&mut self, name: &Label) -> Result<TextBuf, AllocError>
        ensures prefix { IfOk result (λ prefix. prefix ≡ chosen_prefix self.old name.now) }
        ensures same { self.new ≡ self.old }
    {
        if self.keeps_prefix(name)? {
            return TextBuf::of(self.alloc, name.prefix());
        }
        match self.prefix_for(name.uri())? {
            Some(prefix) => Ok(prefix),
            None => self.first_new(),
        }
    }

    /// Whether an attribute has a prefix that is bound to no other URI.
    fn keeps_prefix(&self, name: &Label) -> Result<bool, AllocError>
        ensures { IfOk result (λ keeps. keeps ≡ keeps_prefix self.now name.now) }
    {
        if name.prefix().is_empty() {
            return Ok(false);
        }
        let key = TextKey::of_str(self.alloc, name.prefix())?;
        match self.uri_of(&key) {
            Some(uri) => Ok(uri.as_str() == name.uri()),
            None => Ok(true),
        }
    }

    /// The least prefix, except the empty one, that is bound to a URI.
    #[tactic(auto, unfolding(crate::specs::Bindings::uri_in))]
    fn prefix_for(&self, uri: &str) -> Result<Option<TextBuf>, AllocError>
        ensures { IfOk result (λ prefix. prefix ≡ prefix_for self.now uri.now) }
    {
        let key = TextKey::of_str(self.alloc, uri)?;
        match self.by_uri.get(&key) {
            Some(prefix) => Ok(Some(prefix.copy()?)),
            None => Ok(None),
        }
    }

    /// The first new prefix that is not bound.
    fn first_new(&mut self) -> Result<TextBuf, AllocError>
        ensures first { IfOk result (λ prefix. prefix ≡ first_new self.old) }
        ensures same { self.new ≡ self.old }
    {
        let number = self.first_free()?;
        self.next = number;
        new_prefix(self.alloc, number)
    }

    /// The number of the first new prefix that is not bound. It has to be tried of as many as there
    /// are bindings, from the first on of which that is not known.
    fn first_free(&self) -> Result<u64, AllocError>
        ensures first { IfOk result (λ number.
            new_from (length self.now) self.now 0 ≡ new_prefix number) }
        ensures bound { IfOk result (AreBound self.now) }
    {
        let tries = self.entries.len() as u64;
        for number in self.next..tries {
            let prefix = new_prefix(self.alloc, number)?;
            if !self.binds(&prefix)? {
                return Ok(number);
            }
        }
        Ok(tries)
    }
}

/// Whether an attribute needs a prefix: where it is in a namespace other than that of `xml`.
pub(crate) fn needs_prefix(name: &Label) -> bool
    ensures { result ≡ needs_prefix name.now }
{
    !name.uri().is_empty() && name.uri() != XML_URI
}

/// Whether an event belongs to a start tag.
pub(crate) fn is_in_tag(event: &Event) -> bool
    ensures { result ≡ is_in_tag event.now }
{
    match event {
        Event::Space { .. } => true,
        Event::Attr { .. } => true,
        Event::Start(_) => false,
        Event::Chars(_) => false,
        Event::End => false,
        Event::Comment(_) => false,
        Event::Pi { .. } => false,
    }
}
