//! The lines of a start tag.
ghost use Rattle.std.specs.Prelude.{◌≡◌, ◌∷◌, ◌++◌, [], IfOk, List, map};
ghost use Rattle.std.specs.List.{cons_option};
ghost use Rattle.xs_result_lines.specs.Bindings.{Attribute, attribute_of, attributes_in};
ghost use Rattle.xs_result_lines.specs.Bindings.{bindings_before, with_attribute, with_attributes};
ghost use Rattle.xs_result_lines.specs.Lines.{OpenElement, attribute_line, attribute_lines};
ghost use Rattle.xs_result_lines.specs.Lines.{declaration};
ghost use Rattle.xs_result_lines.specs.steps.Open.{binding, bindings_of};
ghost use Rattle.xs_result_lines.specs.steps.Tags.{comes_to};

use crate::names::{declaration_name, name_with};
use crate::scope::Declared;
use crate::tag_bindings::{TagBindings, is_in_tag};
use std::alloc::{AllocError, Global};
use xs_pyx::Line;
use xs_text::TextBuf;
use xs_trace::event::{Event, Label};

/// A start tag: what it declares, and all its lines.
#[derive(Drop)]
pub(crate) struct StartTag {
    pub(crate) declared: Vec<Declared>,
    pub(crate) lines: Vec<Line>,
}

/// The lines of the attributes so far, and the bindings after them.
#[derive(Drop)]
pub(crate) struct BoundTag {
    pub(crate) bindings: TagBindings,
    pub(crate) lines: Vec<Line>,
}

impl BoundTag {
    /// The line of an attribute is added; no other event is one.
    #[tactic(auto, unfolding(crate::specs::steps::Unfolding::attribute_by_attribute))]
    fn with_event(self, alloc: Global, event: &Event) -> Result<BoundTag, AllocError>
        ensures { IfOk result (λ tag. (more : List Attribute)
            → comes_to tag more ≡ comes_to self (cons_option (attribute_of event.now) more)) }
    {
        match event {
            Event::Attr { name, value } => self.with_attribute(alloc, name, value),
            Event::Start(_) => Ok(self),
            Event::Space { .. } => Ok(self),
            Event::Chars(_) => Ok(self),
            Event::End => Ok(self),
            Event::Comment(_) => Ok(self),
            Event::Pi { .. } => Ok(self),
        }
    }

    /// The line of an attribute is added.
    #[tactic(auto, unfolding(crate::specs::steps::Unfolding::attribute_by_attribute))]
    fn with_attribute(
        self,
        alloc: Global,
        name: &Label,
        value: &TextBuf,
    ) -> Result<BoundTag, AllocError>
        ensures { IfOk result (λ tag. (more : List Attribute)
            → comes_to tag more
            ≡ comes_to self (record { name = name.now; value = value.now } ∷ more)) }
    {
        let BoundTag {
            bindings,
            mut lines,
        } = self;
        let (bindings, line) = bound_attribute(alloc, bindings, name, value)?;
        lines.push(line)?;
        Ok(BoundTag { bindings, lines })
    }
}

/// The lines of the attributes among the events after a start, and the bindings after them.
#[tactic(auto, unfolding(crate::specs::steps::Unfolding::attribute_by_attribute))]
pub(crate) fn bound_attributes(
    alloc: Global,
    bindings: TagBindings,
    added: &[Event],
) -> Result<BoundTag, AllocError>
    ensures { IfOk result (λ tag.
        (tag.bindings ≡ with_attributes bindings (attributes_in added.now))
        × (tag.lines.items ≡ attribute_lines bindings (attributes_in added.now))) }
{
    let mut tag = BoundTag {
        bindings,
        lines: Vec::new(alloc),
    };
    let mut rest = added;
    while let Some((event, more)) = rest.split_first() {
        if !is_in_tag(event) {
            return Ok(tag);
        }
        tag = tag.with_event(alloc, event)?;
        rest = more;
    }
    Ok(tag)
}

/// The line of an attribute, and the bindings after it.
fn bound_attribute(
    alloc: Global,
    bindings: TagBindings,
    name: &Label,
    value: &TextBuf,
) -> Result<(TagBindings, Line), AllocError>
    ensures { IfOk result (λ r. (r.0 ≡ with_attribute bindings name.now)
        × (r.1 ≡ attribute_line bindings name.now value.now)) }
{
    let (bindings, prefix) = bindings.bind(name)?;
    let line = Line::Attr {
        name: name_with(alloc, prefix.as_str(), name.local())?,
        value: value.copy()?,
    };
    Ok((bindings, line))
}

/// The lines of declarations.
pub(crate) fn declaration_lines(
    alloc: Global,
    declared: &[Declared],
) -> Result<Vec<Line>, AllocError>
    ensures { IfOk result (λ lines. lines.items ≡ map declaration (bindings_of declared.now)) }
{
    let mut lines = Vec::new(alloc);
    let mut rest = declared;
    while let Some((first, more)) = rest.split_first() {
        lines.push(declaration_line(alloc, first)?)?;
        rest = more;
    }
    Ok(lines)
}

/// The line of a declaration.
fn declaration_line(alloc: Global, declared: &Declared) -> Result<Line, AllocError>
    ensures { IfOk result (λ line. line ≡ declaration (binding declared.now)) }
{
    Ok(Line::Attr {
        name: declaration_name(alloc, declared.prefix.as_str())?,
        value: declared.uri.copy()?,
    })
}
