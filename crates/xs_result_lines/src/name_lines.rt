//! Lines that are written from names as events have them, with no text made for them.
ghost use Rattle.std.specs.Prelude.{◌≡◌, ◌∷◌, ◌++◌, [], ◌<◌, IfOk, List, OnOk, length, map, take};
ghost use Rattle.std.specs.List.{cons_option};
ghost use Rattle.std.specs.Str.{IsUtf8};
ghost use Rattle.xs_pyx.specs.FirstBytes.{line_feed, space};
ghost use Rattle.xs_pyx.specs.Writing.{written};
ghost use Rattle.xs_pyx.specs.declared.line.Line.TheVariants as line_of;
ghost use Rattle.xs_text.specs.Escapes.{escaped};
ghost use Rattle.xs_result_lines.specs.Bindings.{Attribute, attribute_of, attributes_in};
ghost use Rattle.xs_result_lines.specs.Lines.{bytes_of, declaration, declaration_name};
ghost use Rattle.xs_result_lines.specs.Lines.{element_name};
ghost use Rattle.xs_result.specs.Built.{is_empty};
ghost use Rattle.xs_result_lines.specs.steps.InForce.{own_lines, plain_lines};
ghost use Rattle.xs_result_lines.specs.steps.Open.{binding, bindings_of};
ghost use Rattle.xs_result_lines.specs.steps.Pending.{joined, text_lines};

use crate::plain_text::is_plain;
use crate::scope::Declared;
use crate::tag_bindings::is_in_tag;
use std::alloc::AllocError;
use std::marker::Model;
use xs_text::{Characters, TextBuf, escape_into};
use xs_trace::event::{Event, Label};

/// The name of an element as it is written, with its prefix. Contracts see it as its bytes.
#[derive(Drop)]
pub(crate) struct ElementName {
    label: Label,
}

impl Model for ElementName {
    ghost use Rattle.std.specs.Prelude.{List, ℕ};
    ghost use Rattle.xs_result_lines.specs.Lines.{element_name};

    ghost Value = { List ℕ };

    ghost view = { λ n. element_name n.label };
}

impl ElementName {
    /// The name of an element.
    pub(crate) fn of(label: &Label) -> Result<ElementName, AllocError>
        ensures { IfOk result (λ name. name ≡ element_name label.now) }
    {
        Ok(ElementName {
            label: label.copy()?,
        })
    }

    /// Appends the line of its end. After a refusal a part of it.
    #[tactic(auto, unfolding(xs_pyx::specs::Writing::written))]
    pub(crate) fn append_end(&self, out: &mut Vec<u8>) -> Result<(), AllocError>
        ensures written { OnOk result
            (out.new.items ≡ out.old.items ++ written (line_of.End self.now)) }
        ensures kept { take (length out.old.items) out.new.items ≡ out.old.items }
        ensures utf8 { IsUtf8 out.old.items → IsUtf8 out.new.items }
    {
        append_byte(out, b')')?;
        append_name(out, &self.label)?;
        append_byte(out, b'\n')
    }
}

/// Appends the line of a text. After a refusal a part of it.
#[tactic(auto, unfolding(xs_pyx::specs::Writing::written))]
pub(crate) fn append_chars(out: &mut Vec<u8>, text: &Characters) -> Result<(), AllocError>
    ensures written { OnOk result
        (out.new.items ≡ out.old.items ++ written (line_of.Chars text.now)) }
    ensures kept { take (length out.old.items) out.new.items ≡ out.old.items }
    ensures utf8 { IsUtf8 out.old.items → IsUtf8 out.new.items }
{
    append_byte(out, b'-')?;
    append_data(out, text.as_str())
}

/// Appends the line of a text that lies in pieces, unless it is empty. After a refusal a part of
/// it.
#[tactic(auto, unfolding(xs_pyx::specs::Writing::written, crate::specs::Lines::bytes_of))]
pub(crate) fn append_joined(out: &mut Vec<u8>, texts: &[&Characters]) -> Result<(), AllocError>
    ensures written { OnOk result
        (out.new.items ≡ out.old.items ++ bytes_of (text_lines (joined texts.now))) }
    ensures kept { take (length out.old.items) out.new.items ≡ out.old.items }
    ensures utf8 { IsUtf8 out.old.items → IsUtf8 out.new.items }
{
    if are_empty(texts) {
        return Ok(());
    }
    append_byte(out, b'-')?;
    append_pieces(out, texts)?;
    append_byte(out, b'\n')
}

/// Whether there is no byte in these texts.
#[tactic(auto, using(crate::proofs::PendingLemmas::empty_first))]
fn are_empty(texts: &[&Characters]) -> bool
    ensures { result ≡ is_empty (joined texts.now) }
{
    for text in texts {
        if !text.is_empty() {
            return false;
        }
    }
    true
}

/// Appends texts with their escapes, one after another.
#[tactic(auto, using(crate::proofs::PendingLemmas::piece_written))]
fn append_pieces(out: &mut Vec<u8>, texts: &[&Characters]) -> Result<(), AllocError>
    ensures written { OnOk result
        (out.new.items ≡ out.old.items ++ escaped (joined texts.now)) }
    ensures kept { take (length out.old.items) out.new.items ≡ out.old.items }
    ensures utf8 { IsUtf8 out.old.items → IsUtf8 out.new.items }
{
    for text in texts {
        append_escaped(out, text.as_str())?;
    }
    Ok(())
}

/// Appends the line of a comment. After a refusal a part of it.
#[tactic(auto, unfolding(xs_pyx::specs::Writing::written))]
pub(crate) fn append_comment(out: &mut Vec<u8>, text: &TextBuf) -> Result<(), AllocError>
    ensures written { OnOk result
        (out.new.items ≡ out.old.items ++ written (line_of.Comment text.now)) }
    ensures kept { take (length out.old.items) out.new.items ≡ out.old.items }
    ensures utf8 { IsUtf8 out.old.items → IsUtf8 out.new.items }
{
    append_byte(out, b'C')?;
    append_data(out, text.as_str())
}

/// Appends the line of a processing instruction. After a refusal a part of it.
#[tactic(auto, unfolding(xs_pyx::specs::Writing::written))]
pub(crate) fn append_instruction(
    out: &mut Vec<u8>,
    target: &TextBuf,
    value: &TextBuf,
) -> Result<(), AllocError>
    ensures written { OnOk result
        (out.new.items ≡ out.old.items ++ written (line_of.Pi target.now value.now)) }
    ensures kept { take (length out.old.items) out.new.items ≡ out.old.items }
    ensures utf8 { IsUtf8 out.old.items → IsUtf8 out.new.items }
{
    append_byte(out, b'?')?;
    append_text(out, target.as_str())?;
    append_value(out, value.as_str())
}

/// Appends the lines of a start tag that declares nothing, where its attributes keep their
/// prefixes. After a refusal a part of them.
#[tactic(auto, unfolding(crate::specs::Lines::bytes_of))]
pub(crate) fn append_plain_tag(
    out: &mut Vec<u8>,
    name: &Label,
    behind: &[Event],
) -> Result<(), AllocError>
    ensures written { OnOk result
        (out.new.items ≡ out.old.items ++ bytes_of (plain_lines name.now behind.now)) }
    ensures kept { take (length out.old.items) out.new.items ≡ out.old.items }
    ensures utf8 { IsUtf8 out.old.items → IsUtf8 out.new.items }
{
    append_start(out, name)?;
    append_attributes(out, behind)
}

/// Appends the line of the start of an element.
#[tactic(auto, unfolding(xs_pyx::specs::Writing::written))]
pub(crate) fn append_start(out: &mut Vec<u8>, name: &Label) -> Result<(), AllocError>
    ensures written { OnOk result
        (out.new.items ≡ out.old.items ++ written (line_of.Start (element_name name.now))) }
    ensures kept { take (length out.old.items) out.new.items ≡ out.old.items }
    ensures utf8 { IsUtf8 out.old.items → IsUtf8 out.new.items }
{
    append_byte(out, b'(')?;
    append_name(out, name)?;
    append_byte(out, b'\n')
}

/// Appends the lines of the attributes of a start tag.
#[tactic(auto, unfolding(crate::specs::Bindings::attributes_in, crate::specs::Lines::bytes_of))]
fn append_attributes(out: &mut Vec<u8>, behind: &[Event]) -> Result<(), AllocError>
    ensures written { OnOk result
        (out.new.items ≡ out.old.items ++ bytes_of (own_lines (attributes_in behind.now))) }
    ensures kept { take (length out.old.items) out.new.items ≡ out.old.items }
    ensures utf8 { IsUtf8 out.old.items → IsUtf8 out.new.items }
{
    let mut rest = behind;
    while let Some((event, more)) = rest.split_first() {
        if !is_in_tag(event) {
            return Ok(());
        }
        append_event(out, event)?;
        rest = more;
    }
    Ok(())
}

/// Appends the line of an attribute; no other event is one.
#[tactic(auto, unfolding(crate::specs::Lines::bytes_of))]
pub(crate) fn append_event(out: &mut Vec<u8>, event: &Event) -> Result<(), AllocError>
    ensures written { OnOk result ((more : List Attribute)
        → out.new.items ++ bytes_of (own_lines more)
        ≡ out.old.items ++ bytes_of (own_lines (cons_option (attribute_of event.now) more))) }
    ensures kept { take (length out.old.items) out.new.items ≡ out.old.items }
    ensures utf8 { IsUtf8 out.old.items → IsUtf8 out.new.items }
{
    match event {
        Event::Attr { name, value } => append_attribute(out, name, value),
        Event::Start(_) => Ok(()),
        Event::Space { .. } => Ok(()),
        Event::Chars(_) => Ok(()),
        Event::End => Ok(()),
        Event::Comment(_) => Ok(()),
        Event::Pi { .. } => Ok(()),
    }
}

/// Appends the lines of declarations.
#[tactic(auto, unfolding(crate::specs::Lines::bytes_of))]
pub(crate) fn append_declarations(
    out: &mut Vec<u8>,
    declared: &[Declared],
) -> Result<(), AllocError>
    ensures written { OnOk result (out.new.items
        ≡ out.old.items ++ bytes_of (map declaration (bindings_of declared.now))) }
    ensures kept { take (length out.old.items) out.new.items ≡ out.old.items }
    ensures utf8 { IsUtf8 out.old.items → IsUtf8 out.new.items }
{
    let mut rest = declared;
    while let Some((first, more)) = rest.split_first() {
        append_declaration(out, first)?;
        rest = more;
    }
    Ok(())
}

/// Appends the line of a declaration.
#[tactic(auto, unfolding(xs_pyx::specs::Writing::written))]
fn append_declaration(out: &mut Vec<u8>, declared: &Declared) -> Result<(), AllocError>
    ensures written { OnOk result
        (out.new.items ≡ out.old.items ++ written (declaration (binding declared.now))) }
    ensures kept { take (length out.old.items) out.new.items ≡ out.old.items }
    ensures utf8 { IsUtf8 out.old.items → IsUtf8 out.new.items }
{
    append_byte(out, b'A')?;
    append_declaration_name(out, declared.prefix.as_str())?;
    append_value(out, declared.uri.as_str())
}

/// Appends the name of the attribute that declares a prefix.
fn append_declaration_name(out: &mut Vec<u8>, prefix: &str) -> Result<(), AllocError>
    ensures written { OnOk result
        (out.new.items ≡ out.old.items ++ declaration_name prefix.now) }
    ensures kept { take (length out.old.items) out.new.items ≡ out.old.items }
    ensures utf8 { IsUtf8 out.old.items → IsUtf8 out.new.items }
{
    if prefix.is_empty() {
        return append_text(out, "xmlns");
    }
    append_text(out, "xmlns")?;
    append_byte(out, b':')?;
    append_text(out, prefix)
}

/// Appends the line of an attribute.
#[tactic(auto, unfolding(xs_pyx::specs::Writing::written))]
fn append_attribute(out: &mut Vec<u8>, name: &Label, value: &TextBuf) -> Result<(), AllocError>
    ensures written { OnOk result (out.new.items
        ≡ out.old.items ++ written (line_of.Attr (element_name name.now) value.now)) }
    ensures kept { take (length out.old.items) out.new.items ≡ out.old.items }
    ensures utf8 { IsUtf8 out.old.items → IsUtf8 out.new.items }
{
    append_byte(out, b'A')?;
    append_name(out, name)?;
    append_value(out, value.as_str())
}

/// Appends the rest of the line of an attribute: a space and its value.
fn append_value(out: &mut Vec<u8>, value: &str) -> Result<(), AllocError>
    ensures written { OnOk result
        (out.new.items ≡ out.old.items ++ space ∷ escaped value.now ++ line_feed ∷ []) }
    ensures kept { take (length out.old.items) out.new.items ≡ out.old.items }
    ensures utf8 { IsUtf8 out.old.items → IsUtf8 out.new.items }
{
    append_byte(out, b' ')?;
    append_data(out, value)
}

/// Appends data and a line feed.
fn append_data(out: &mut Vec<u8>, text: &str) -> Result<(), AllocError>
    ensures written { OnOk result
        (out.new.items ≡ out.old.items ++ escaped text.now ++ line_feed ∷ []) }
    ensures kept { take (length out.old.items) out.new.items ≡ out.old.items }
    ensures utf8 { IsUtf8 out.old.items → IsUtf8 out.new.items }
{
    append_escaped(out, text)?;
    append_byte(out, b'\n')
}

/// Appends a value with its escapes.
fn append_escaped(out: &mut Vec<u8>, value: &str) -> Result<(), AllocError>
    ensures written { OnOk result (out.new.items ≡ out.old.items ++ escaped value.now) }
    ensures kept { take (length out.old.items) out.new.items ≡ out.old.items }
    ensures utf8 { IsUtf8 out.old.items → IsUtf8 out.new.items }
{
    if is_plain(value) {
        return append_text(out, value);
    }
    escape_into(out, value)?;
    Ok(())
}

/// Appends a name, with its prefix if it has one.
fn append_name(out: &mut Vec<u8>, name: &Label) -> Result<(), AllocError>
    ensures written { OnOk result (out.new.items ≡ out.old.items ++ element_name name.now) }
    ensures kept { take (length out.old.items) out.new.items ≡ out.old.items }
    ensures utf8 { IsUtf8 out.old.items → IsUtf8 out.new.items }
{
    if name.prefix().is_empty() {
        return append_text(out, name.local());
    }
    append_text(out, name.prefix())?;
    append_byte(out, b':')?;
    append_text(out, name.local())
}

/// Appends a text. Of one byte, as many prefixes and names are, this takes no call.
#[inline(always)]
fn append_text(out: &mut Vec<u8>, text: &str) -> Result<(), AllocError>
    ensures written { OnOk result (out.new.items ≡ out.old.items ++ text.now) }
    ensures kept { take (length out.old.items) out.new.items ≡ out.old.items }
    ensures utf8 { IsUtf8 out.old.items → IsUtf8 out.new.items }
{
    match text.as_bytes() {
        [one] if *one < 128 => append_byte(out, *one),
        _ => append_several(out, text),
    }
}

/// Appends a text of several bytes.
fn append_several(out: &mut Vec<u8>, text: &str) -> Result<(), AllocError>
    ensures written { OnOk result (out.new.items ≡ out.old.items ++ text.now) }
    ensures kept { take (length out.old.items) out.new.items ≡ out.old.items }
    ensures utf8 { IsUtf8 out.old.items → IsUtf8 out.new.items }
{
    out.extend_from_slice(text.as_bytes())
}

/// Appends a character of ASCII.
fn append_byte(out: &mut Vec<u8>, byte: u8) -> Result<(), AllocError>
    requires { byte < 128 }
    ensures written { OnOk result (out.new.items ≡ out.old.items ++ byte ∷ []) }
    ensures kept { take (length out.old.items) out.new.items ≡ out.old.items }
    ensures utf8 { IsUtf8 out.old.items → IsUtf8 out.new.items }
{
    out.push(byte)?;
    Ok(())
}
