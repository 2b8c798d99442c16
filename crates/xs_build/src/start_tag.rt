//! What the attribute lines of a start tag declare (Namespaces in XML 1.0, 3).

ghost use Rattle.std.specs.Prelude.{◌≡◌, ◌++◌, true, IfOk, OnOk, map, option_map};
ghost use Rattle.std.specs.Option.{option_to_list};
ghost use Rattle.xs_pyx.specs.Row.{rows_of, first_row};
ghost use Rattle.xs_pyx.specs.Reading.{reading};
ghost use Rattle.xs_pyx.specs.Views.{data_shown, line_shown, IsReadable, IsReadableData};
ghost use Rattle.xs_build.specs.Start.{begins_with, binding_of, line_binding, reading_binding};
ghost use Rattle.xs_build.specs.Start.{declarations};
ghost use Rattle.xs_build.specs.steps.Views.{binding, bindings_of};

use crate::data::read_out;
use crate::qnames::{declared_prefix, is_bad_binding};
use crate::scope::Declared;
use std::alloc::{AllocError, Global};
use xs_pyx::{Data, LineView, skip_line, view_line};
use xs_tree::NameText;

/// What an attribute of this name and value declares, if it declares something.
#[tactic(auto, unfolding(crate::specs::Start::binding_of))]
fn attribute_declaration(
    alloc: Global,
    name: &str,
    value: &str,
) -> Result<Option<Declared>, AllocError>
    ensures { IfOk result (λ found. option_map binding found ≡ binding_of name.now value.now) }
{
    let Some((prefix, local)) = xs_text::split_qname(name) else {
        return Ok(None);
    };
    let Some(prefix) = declared_prefix(prefix, local) else {
        return Ok(None);
    };
    if is_bad_binding(prefix, value) {
        return Ok(None);
    }
    Ok(Some(Declared {
        prefix: NameText::of(alloc, prefix)?,
        uri: NameText::of(alloc, value)?,
    }))
}

/// What an attribute of this name, and of a value as it is written, declares, if it declares
/// something.
fn data_declaration(
    alloc: Global,
    name: &str,
    value: Data<'_>,
) -> Result<Option<Declared>, AllocError>
    requires { IsReadableData value }
    ensures { IfOk result (λ found. option_map binding found
        ≡ binding_of name.now (data_shown value.entry)) }
{
    match value {
        Data::Plain(value) => attribute_declaration(alloc, name, value),
        Data::Escaped(_) => {
            let value = read_out(alloc, value)?;
            attribute_declaration(alloc, name, value.as_str())
        }
    }
}

/// What a line declares, if it declares something.
fn line_declaration(alloc: Global, line: LineView<'_>) -> Result<Option<Declared>, AllocError>
    requires { IsReadable line }
    ensures { IfOk result
        (λ found. option_map binding found ≡ line_binding (line_shown line.entry)) }
{
    match line {
        LineView::Attr { name, value } => data_declaration(alloc, name, value),
        LineView::Start(_) => Ok(None),
        LineView::Chars(_) => Ok(None),
        LineView::End(_) => Ok(None),
        LineView::Pi { .. } => Ok(None),
        LineView::Comment(_) => Ok(None),
    }
}

/// Whether the first line is an attribute line.
fn is_attribute(bytes: &[u8]) -> bool
    ensures { result ≡ begins_with 65 bytes.now }
{
    matches!(bytes, [b'A', ..])
}

/// What the first line declares, which is an attribute line. One that does not begin with `Axmlns`
/// is not read.
fn first_declaration(alloc: Global, bytes: &[u8]) -> Result<Option<Declared>, AllocError>
    requires { begins_with 65 bytes.now ≡ true }
    ensures { IfOk result (λ found. option_map binding found ≡ reading_binding
        (reading (first_row bytes.now))) }
{
    if !bytes.starts_with(b"Axmlns") {
        return Ok(None);
    }
    read_declaration(alloc, bytes)
}

/// What the first line declares, which is an attribute line.
#[inline(never)]
fn read_declaration(alloc: Global, bytes: &[u8]) -> Result<Option<Declared>, AllocError>
    requires { begins_with 65 bytes.now ≡ true }
    ensures { IfOk result (λ found. option_map binding found ≡ reading_binding
        (reading (first_row bytes.now))) }
{
    match view_line(bytes) {
        Ok(Some(found)) => line_declaration(alloc, found.0),
        Ok(None) => Ok(None),
        Err(_) => Ok(None),
    }
}

/// Adds what the first line declares, which is an attribute line.
fn push_declaration(
    declared: &mut Vec<Declared>,
    alloc: Global,
    bytes: &[u8],
) -> Result<(), AllocError>
    requires { begins_with 65 bytes.now ≡ true }
    ensures { OnOk result (bindings_of declared.new ≡ bindings_of declared.old ++ option_to_list
        (reading_binding (reading (first_row bytes.now)))) }
{
    if let Some(found) = first_declaration(alloc, bytes)? {
        declared.push(found)?;
    }
    Ok(())
}

/// What the attribute lines at the head of the bytes declare, in their order.
#[inline(always)]
pub fn declarations(alloc: Global, bytes: &[u8]) -> Result<Vec<Declared>, AllocError>
    ensures { IfOk result (λ declared. bindings_of declared ≡ declarations (rows_of bytes.now)) }
{
    let mut declared = Vec::new(alloc);
    let mut rest = bytes;
    while is_attribute(rest) {
        push_declaration(&mut declared, alloc, rest)?;
        rest = skip_line(rest);
    }
    Ok(declared)
}
