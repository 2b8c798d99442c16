//! A writer of a result, which takes its events as they come to stay.
ghost use Rattle.std.specs.Prelude.{◌≡◌, ◌∷◌, ◌++◌, [], true, IfOk, List, OnOk, length, take};
ghost use Rattle.std.specs.Str.{IsUtf8};
ghost use Rattle.xs_trace.specs.declared.event.Event.{Event};
ghost use Rattle.xs_trace.specs.declared.event.Event.TheVariants as event_of;
ghost use Rattle.xs_result_lines.specs.Bindings.{declared};
ghost use Rattle.xs_result_lines.specs.Lines.{bytes_of, element_name, entered, lines, open_after};
ghost use Rattle.xs_result_lines.specs.Lines.{scope_of, tag_lines};
ghost use Rattle.xs_result_lines.specs.steps.InForce.{is_plain_tag};
ghost use Rattle.xs_result_lines.specs.steps.Open.{bindings_of};
ghost use Rattle.xs_result_lines.specs.steps.Pending.{IsAlone, begun, is_simple, lent};
ghost use Rattle.xs_result_lines.specs.steps.Tags.{IsTag};

use crate::in_force::is_plain_tag;
use crate::lent::{append_lent_tag, built, is_plain_lent, is_simple};
use crate::name_lines::{
    ElementName, append_chars, append_comment, append_instruction, append_plain_tag,
};
use crate::names::name_with;
use crate::scope::{Declared, Scope};
use crate::tag::{BoundTag, StartTag, bound_attributes, declaration_lines};
use crate::tag_bindings::TagBindings;
use std::alloc::{AllocError, Global};
use std::marker::Model;
use xs_pyx::{Line, write_line};
use xs_trace::event::{Event, Label};

/// An element that is open: its name as it is written, and how many declarations it has.
#[derive(Drop)]
struct Frame {
    name: ElementName,
    declared: usize,
}

/// The elements that are open and the declarations that are in force. Contracts see it as the
/// open elements, the innermost first.
///
/// It takes time linear in the events that it writes, however deep they nest and however many
/// declarations are in force.
#[derive(Drop)]
pub(crate) struct PyxWriter {
    pub(crate) alloc: Global,
    /// What is in force; none after memory ran out.
    pub(crate) scope: Option<Scope>,
    /// The open elements, the innermost last.
    elements: Vec<Frame>,
}

impl Model for PyxWriter {
    ghost use Rattle.std.specs.Prelude.{List, reverse};
    ghost use Rattle.xs_result_lines.specs.Lines.{OpenElement};
    ghost use Rattle.xs_result_lines.specs.steps.Open.{AreStillTheirs, in_force, opened};

    ghost Value = { List OpenElement };

    ghost view = { λ w. opened (reverse w.elements.items) (in_force w.scope) };

    ghost invariant = { λ w. AreStillTheirs (reverse w.elements.items) w.scope };
}

impl PyxWriter {
    /// Before the first event.
    pub(crate) fn new(alloc: Global) -> Result<PyxWriter, AllocError>
        ensures { IfOk result (λ writer. writer ≡ []) }
    {
        Ok(PyxWriter {
            alloc,
            scope: Some(Scope::outermost(alloc)?),
            elements: Vec::new(alloc),
        })
    }

    /// Appends the lines of events that stay. A start tag has to be whole: its namespace nodes and
    /// attributes come in one call with its start. After a refusal some lines may be there, and
    /// every further call may be refused.
    #[tactic(auto, unfolding(crate::specs::steps::Unfolding::event_by_event))]
    pub(crate) fn append(&mut self, out: &mut Vec<u8>, events: &[Event]) -> Result<(), AllocError>
        ensures written { OnOk result
            (out.new.items ≡ out.old.items ++ bytes_of (lines self.old events.now)) }
        ensures opened { OnOk result (self.new ≡ open_after self.old events.now) }
        ensures kept { take (length out.old.items) out.new.items ≡ out.old.items }
        ensures utf8 { IsUtf8 out.old.items → IsUtf8 out.new.items }
    {
        let mut rest = events;
        while let Some((event, behind)) = rest.split_first() {
            self.event(out, event, behind)?;
            rest = behind;
        }
        Ok(())
    }

    /// Writes an event, after which these come.
    #[tactic(auto, unfolding(crate::specs::steps::Unfolding::event_by_event))]
    fn event(
        &mut self,
        out: &mut Vec<u8>,
        event: &Event,
        behind: &[Event],
    ) -> Result<(), AllocError>
        ensures written { OnOk result
            (out.new.items ++ bytes_of (lines self.new behind.now)
            ≡ out.old.items ++ bytes_of (lines self.old (event.now ∷ behind.now))) }
        ensures opened { OnOk result
            (open_after self.new behind.now ≡ open_after self.old (event.now ∷ behind.now)) }
        ensures kept { take (length out.old.items) out.new.items ≡ out.old.items }
        ensures utf8 { IsUtf8 out.old.items → IsUtf8 out.new.items }
    {
        match event {
            Event::Start(name) => self.start(out, name, behind),
            Event::Space { .. } => Ok(()),
            Event::Attr { .. } => Ok(()),
            Event::Chars(text) => append_chars(out, text),
            Event::End => self.end(out),
            Event::Comment(text) => append_comment(out, text),
            Event::Pi { target, value } => append_instruction(out, target, value),
        }
    }

    /// Writes an event, after which no part of a start tag comes.
    #[tactic(auto, unfolding(crate::specs::steps::Unfolding::event_by_event))]
    pub(crate) fn one(&mut self, out: &mut Vec<u8>, event: &Event) -> Result<(), AllocError>
        ensures written { OnOk result
            (out.new.items ≡ out.old.items ++ bytes_of (lines self.old (event.now ∷ []))) }
        ensures opened { OnOk result (self.new ≡ open_after self.old (event.now ∷ [])) }
        ensures kept { take (length out.old.items) out.new.items ≡ out.old.items }
        ensures utf8 { IsUtf8 out.old.items → IsUtf8 out.new.items }
    {
        self.event(out, event, &[])
    }

    /// Writes a start tag, which is lent as its start and what was added to it. The element is then
    /// open.
    pub(crate) fn tag(&mut self, out: &mut Vec<u8>, tag: &[&Event]) -> Result<(), AllocError>
        requires alone { IsAlone (begun tag.now) }
        ensures written { OnOk result
            (out.new.items ≡ out.old.items ++ bytes_of (lines self.old (begun tag.now).tag)) }
        ensures opened { OnOk result (self.new ≡ open_after self.old (begun tag.now).tag) }
        ensures kept { take (length out.old.items) out.new.items ≡ out.old.items }
        ensures utf8 { IsUtf8 out.old.items → IsUtf8 out.new.items }
    {
        match tag.split_first() {
            Some(parts) => self.tag_of(out, *parts.0, parts.1, tag),
            None => self.built_tag(out, tag),
        }
    }

    /// The same, by its first event.
    fn tag_of(
        &mut self,
        out: &mut Vec<u8>,
        start: &Event,
        added: &[&Event],
        tag: &[&Event],
    ) -> Result<(), AllocError>
        requires alone { IsAlone (begun tag.now) }
        requires whole { lent tag.now ≡ start.now ∷ lent added.now }
        ensures written { OnOk result
            (out.new.items ≡ out.old.items ++ bytes_of (lines self.old (begun tag.now).tag)) }
        ensures opened { OnOk result (self.new ≡ open_after self.old (begun tag.now).tag) }
        ensures kept { take (length out.old.items) out.new.items ≡ out.old.items }
        ensures utf8 { IsUtf8 out.old.items → IsUtf8 out.new.items }
    {
        match start {
            Event::Start(name) => self.named_tag(out, name, added, tag),
            _ => self.built_tag(out, tag),
        }
    }

    /// The same, of an element with this name.
    fn named_tag(
        &mut self,
        out: &mut Vec<u8>,
        name: &Label,
        added: &[&Event],
        tag: &[&Event],
    ) -> Result<(), AllocError>
        requires alone { IsAlone (begun tag.now) }
        requires whole { lent tag.now ≡ event_of.Start name.now ∷ lent added.now }
        ensures written { OnOk result
            (out.new.items ≡ out.old.items ++ bytes_of (lines self.old (begun tag.now).tag)) }
        ensures opened { OnOk result (self.new ≡ open_after self.old (begun tag.now).tag) }
        ensures kept { take (length out.old.items) out.new.items ≡ out.old.items }
        ensures utf8 { IsUtf8 out.old.items → IsUtf8 out.new.items }
    {
        if self.is_plain_lent(name, added)? {
            return self.plain_tag(out, name, added);
        }
        self.declaring_tag(out, name, added, tag)
    }

    /// Whether a start tag is written as it is lent: no two of its attributes have one name, and it
    /// declares nothing. It may answer no where that is so.
    fn is_plain_lent(&self, name: &Label, added: &[&Event]) -> Result<bool, AllocError>
        ensures plain { IfOk result (λ holds. holds ≡ true
            → is_plain_tag (scope_of self.now) name.now (lent added.now) ≡ true) }
        ensures simple { IfOk result (λ holds. holds ≡ true → is_simple (lent added.now) ≡ true) }
    {
        if !is_simple(added) {
            return Ok(false);
        }
        match &self.scope {
            Some(scope) => is_plain_lent(scope, name, added),
            None => Err(AllocError),
        }
    }

    /// Writes such a start tag.
    fn plain_tag(
        &mut self,
        out: &mut Vec<u8>,
        name: &Label,
        added: &[&Event],
    ) -> Result<(), AllocError>
        requires plain { is_plain_tag (scope_of self.old) name.now (lent added.now) ≡ true }
        requires simple { is_simple (lent added.now) ≡ true }
        ensures written { OnOk result (out.new.items ≡ out.old.items
            ++ bytes_of (lines self.old (event_of.Start name.now ∷ lent added.now))) }
        ensures opened { OnOk result
            (self.new ≡ open_after self.old (event_of.Start name.now ∷ lent added.now)) }
        ensures kept { take (length out.old.items) out.new.items ≡ out.old.items }
        ensures utf8 { IsUtf8 out.old.items → IsUtf8 out.new.items }
    {
        append_lent_tag(out, name, added)?;
        self.enter_plain(name)
    }

    /// Writes any start tag, of events that are made for it.
    #[inline(never)]
    pub(crate) fn built_tag(&mut self, out: &mut Vec<u8>, tag: &[&Event]) -> Result<(), AllocError>
        requires alone { IsAlone (begun tag.now) }
        ensures written { OnOk result
            (out.new.items ≡ out.old.items ++ bytes_of (lines self.old (begun tag.now).tag)) }
        ensures opened { OnOk result (self.new ≡ open_after self.old (begun tag.now).tag) }
        ensures kept { take (length out.old.items) out.new.items ≡ out.old.items }
        ensures utf8 { IsUtf8 out.old.items → IsUtf8 out.new.items }
    {
        let whole = built(self.alloc, tag)?;
        self.append(out, whole.events())
    }

    /// Writes the start tag of an element, which is then open.
    fn start(&mut self, out: &mut Vec<u8>, name: &Label, behind: &[Event]) -> Result<(), AllocError>
        ensures written { OnOk result (out.new.items
            ≡ out.old.items ++ bytes_of (tag_lines self.old name.now behind.now)) }
        ensures opened { OnOk result (self.new ≡ entered self.old name.now behind.now) }
        ensures kept { take (length out.old.items) out.new.items ≡ out.old.items }
        ensures utf8 { IsUtf8 out.old.items → IsUtf8 out.new.items }
    {
        if self.is_plain_tag(name, behind)? {
            append_plain_tag(out, name, behind)?;
            return self.enter_plain(name);
        }
        let tag = self.start_tag(name, behind)?;
        append_lines(out, &tag.lines)?;
        self.enter(name, tag.declared)
    }

    /// Whether the start tag of an element declares nothing here, and its attributes keep their
    /// prefixes.
    fn is_plain_tag(&self, name: &Label, behind: &[Event]) -> Result<bool, AllocError>
        ensures { IfOk result (λ holds. holds
            ≡ is_plain_tag (scope_of self.now) name.now behind.now) }
    {
        match &self.scope {
            Some(scope) => is_plain_tag(scope, name, behind),
            None => Err(AllocError),
        }
    }

    /// The bindings of a start tag that are new here, in their order.
    pub(crate) fn declared(&self, tag: &TagBindings) -> Result<Vec<Declared>, AllocError>
        ensures { IfOk result (λ all.
            bindings_of all.items ≡ declared (scope_of self.now) tag.now) }
    {
        match &self.scope {
            Some(scope) => scope.declared(self.alloc, tag),
            None => Err(AllocError),
        }
    }

    /// The start tag of an element.
    #[tactic(auto, unfolding(crate::specs::Bindings::bindings))]
    fn start_tag(&self, name: &Label, behind: &[Event]) -> Result<StartTag, AllocError>
        ensures { IfOk result (λ tag. IsTag tag self.now name.now behind.now) }
    {
        let alloc = self.alloc;
        let bindings = TagBindings::of(alloc, name, behind)?;
        let BoundTag {
            bindings,
            mut lines,
        } = bound_attributes(alloc, bindings, behind)?;
        let declared = self.declared(&bindings)?;
        let name = name_with(alloc, name.prefix(), name.local())?;
        let mut all = Vec::new(alloc);
        all.push(Line::Start(name))?;
        let mut declarations = declaration_lines(alloc, &declared)?;
        all.append(&mut declarations)?;
        all.append(&mut lines)?;
        Ok(StartTag {
            declared,
            lines: all,
        })
    }

    /// An element is open that declares nothing.
    fn enter_plain(&mut self, name: &Label) -> Result<(), AllocError>
        ensures { OnOk result (self.new ≡ record {
          name = element_name name.now;
          scope = scope_of self.old;
        } ∷ self.old) }
    {
        if !self.has_recent(name.prefix()) {
            return self.enter(name, Vec::new(self.alloc));
        }
        let name = ElementName::of(name)?;
        self.elements.push(Frame { name, declared: 0 })?;
        Ok(())
    }

    /// Whether the last element had this prefix.
    fn has_recent(&self, prefix: &str) -> bool {
        match &self.scope {
            Some(scope) => scope.has_recent(prefix),
            None => false,
        }
    }

    /// An element is open, with these declarations.
    pub(crate) fn enter(&mut self, name: &Label, declared: Vec<Declared>) -> Result<(), AllocError>
        ensures { OnOk result (self.new ≡ record {
          name = element_name name.now;
          scope = bindings_of declared.items ++ scope_of self.old;
        } ∷ self.old) }
    {
        match self.scope.take() {
            Some(scope) => {
                self.elements.push(Frame {
                    name: ElementName::of(name)?,
                    declared: declared.len(),
                })?;
                let scope = scope.with_recent(name.prefix())?;
                self.scope = Some(scope.enter(declared)?);
                Ok(())
            }
            None => Err(AllocError),
        }
    }

    /// Writes the end of the innermost open element.
    #[tactic(auto, unfolding(crate::specs::steps::Unfolding::event_by_event))]
    fn end(&mut self, out: &mut Vec<u8>) -> Result<(), AllocError>
        ensures written { OnOk result ((es : List Event)
            → out.new.items ++ bytes_of (lines self.new es)
            ≡ out.old.items ++ bytes_of (lines self.old (event_of.End ∷ es))) }
        ensures opened { OnOk result ((es : List Event)
            → open_after self.new es ≡ open_after self.old (event_of.End ∷ es)) }
        ensures kept { take (length out.old.items) out.new.items ≡ out.old.items }
        ensures utf8 { IsUtf8 out.old.items → IsUtf8 out.new.items }
    {
        match self.elements.pop() {
            Some(Frame { name, declared }) => {
                if declared == 0 {
                    return name.append_end(out);
                }
                match self.scope.take() {
                    Some(scope) => {
                        name.append_end(out)?;
                        self.scope = Some(scope.leave(declared)?);
                        Ok(())
                    }
                    None => Err(AllocError),
                }
            }
            None => Ok(()),
        }
    }
}

/// Appends lines. After a refusal some of them.
#[tactic(auto, unfolding(crate::specs::Lines::bytes_of))]
fn append_lines(out: &mut Vec<u8>, lines: &[Line]) -> Result<(), AllocError>
    ensures written { OnOk result (out.new.items ≡ out.old.items ++ bytes_of lines.now) }
    ensures kept { take (length out.old.items) out.new.items ≡ out.old.items }
    ensures utf8 { IsUtf8 out.old.items → IsUtf8 out.new.items }
{
    let mut rest = lines;
    while let Some((line, more)) = rest.split_first() {
        write_line(out, line)?;
        rest = more;
    }
    Ok(())
}
