//! What is put of literal elements (XSLT 1.0, 7.1.1).

ghost use Rattle.std.specs.Prelude.{◌≡◌, ◌==◌, length, IfOk};
ghost use Rattle.std.specs.Option.{option_map_or};
ghost use Rattle.xs_body.specs.steps.Making.{is_declaration, is_unbound, literal_steps};
ghost use Rattle.xs_body.specs.steps.Making.{named_steps, space_steps, spaces_steps};
ghost use Rattle.xs_body_spec.specs.Making.{aliased, attribute_label, element_label};
ghost use Rattle.xs_trace.specs.Play.{IsStep};

use std::alloc::AllocError;
use xs_making::SheetTexts;
use xs_sheet::body::LiteralStart;
use xs_sheet::declarations::Alias;
use xs_text::{TextBuf, XML_URI};
use xs_trace::event::{Event, Label};
use xs_trace::item::Site;
use xs_trace::recorder::{Halt, Recorder, put_event};

/// Puts the start of a literal element and its namespace nodes.
pub(crate) fn put_literal_start<R: Recorder>(
    aliases: &[Alias],
    start: &LiteralStart,
    site: Site,
    texts: &mut SheetTexts,
    recorder: &mut R,
) -> Result<(), Halt>
    ensures reported { IsStep (literal_steps aliases.now site start.now (R.state recorder.old))
        result (R.state recorder.new) }
    ensures kept { R.kept recorder.new ≡ R.kept recorder.old }
{
    let name = element_label(aliases, &start.name, texts)?;
    put_event(recorder, site, Event::Start(name))?;
    put_spaces(aliases, start.spaces.as_slice(), site, texts, recorder)
}

/// Whether a literal element has no attribute sets.
pub(crate) fn has_no_sets(start: &LiteralStart) -> bool
    ensures { result ≡ (length start.now.sets == 0) }
{
    start.sets.as_slice().is_empty()
}

/// Puts namespace nodes.
fn put_spaces<R: Recorder>(
    aliases: &[Alias],
    spaces: &[(TextBuf, TextBuf)],
    site: Site,
    texts: &mut SheetTexts,
    recorder: &mut R,
) -> Result<(), Halt>
    ensures reported { IsStep (spaces_steps aliases.now site spaces.now (R.state recorder.old))
        result (R.state recorder.new) }
    ensures kept { R.kept recorder.new ≡ R.kept recorder.old }
{
    let mut left = spaces;
    while let Some((space, behind)) = left.split_first() {
        put_space(aliases, space, site, texts, recorder)?;
        left = behind;
    }
    Ok(())
}

/// Puts a namespace node, except for no namespace and for that of `xml`.
fn put_space<R: Recorder>(
    aliases: &[Alias],
    space: &(TextBuf, TextBuf),
    site: Site,
    texts: &mut SheetTexts,
    recorder: &mut R,
) -> Result<(), Halt>
    ensures reported { IsStep (space_steps site space.now.0 (aliased aliases.now space.now.1)
        (R.state recorder.old)) result (R.state recorder.new) }
    ensures kept { R.kept recorder.new ≡ R.kept recorder.old }
{
    let prefix = space.0.as_str();
    let uri = space.1.as_str();
    match alias_of(aliases, uri) {
        None => put_bound(prefix, uri, site, texts, recorder),
        Some(alias) => put_bound(prefix, alias.to_uri.as_str(), site, texts, recorder),
    }
}

/// Puts a namespace node without an alias.
fn put_bound<R: Recorder>(
    prefix: &str,
    uri: &str,
    site: Site,
    texts: &mut SheetTexts,
    recorder: &mut R,
) -> Result<(), Halt>
    ensures reported { IsStep (space_steps site prefix.now uri.now (R.state recorder.old))
        result (R.state recorder.new) }
    ensures kept { R.kept recorder.new ≡ R.kept recorder.old }
{
    if is_unbound(uri) {
        return Ok(());
    }
    let space = Event::Space {
        prefix: texts.text(prefix)?,
        uri: texts.text(uri)?,
    };
    put_event(recorder, site, space)
}

/// Puts an attribute, except for one that would be read as the declaration of a default namespace.
pub(crate) fn put_attribute<R: Recorder>(
    name: Label,
    value: TextBuf,
    site: Site,
    recorder: &mut R,
) -> Result<(), Halt>
    ensures reported { IsStep (named_steps site name value (R.state recorder.old))
        result (R.state recorder.new) }
    ensures kept { R.kept recorder.new ≡ R.kept recorder.old }
{
    if is_declaration(&name) {
        return Ok(());
    }
    put_event(recorder, site, Event::Attr { name, value })
}

/// Whether no namespace node is put for a namespace.
fn is_unbound(uri: &str) -> bool
    ensures { result ≡ is_unbound uri.now }
{
    uri.is_empty() || uri == XML_URI
}

/// Whether an attribute would be read as the declaration of a default namespace.
fn is_declaration(name: &Label) -> bool
    ensures { result ≡ is_declaration name.now }
{
    name.uri().is_empty() && name.local() == "xmlns"
}

/// The name of an attribute of a literal element.
pub(crate) fn attribute_label(
    aliases: &[Alias],
    name: &Label,
    texts: &mut SheetTexts,
) -> Result<Label, AllocError>
    ensures label { IfOk result (λ label. label ≡ attribute_label aliases.now name.now) }
{
    if name.uri().is_empty() {
        return texts.label(name.uri(), name.local(), name.prefix());
    }
    element_label(aliases, name, texts)
}

/// The name of a literal element.
fn element_label(
    aliases: &[Alias],
    name: &Label,
    texts: &mut SheetTexts,
) -> Result<Label, AllocError>
    ensures label { IfOk result (λ label. label ≡ element_label aliases.now name.now) }
{
    match alias_of(aliases, name.uri()) {
        None => texts.label(name.uri(), name.local(), name.prefix()),
        Some(alias) => texts.label(alias.to_uri.as_str(), name.local(), name.prefix()),
    }
}

/// The alias of a namespace, where it has one.
fn alias_of<'t>(aliases: &'t [Alias], uri: &str) -> Option<&'t Alias>
    ensures { aliased aliases.now uri.now ≡ option_map_or (λ a. a.now.to_uri) result uri.now }
{
    let mut left = aliases;
    while let Some((alias, others)) = left.split_first() {
        if alias.from_uri.as_str() == uri {
            return Some(alias);
        }
        left = others;
    }
    None
}
