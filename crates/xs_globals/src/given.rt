//! What globals begin with, and their order (XSLT 1.0, 11.4).

ghost use Rattle.std.specs.Prelude.{◌≡◌, ◌&&◌, [], map, false, IfOk, option_map};
ghost use Rattle.std.specs.Str.{bytes_eq};
ghost use Rattle.xs_body_spec.specs.Globals.{IsInOrder, placed, text_given, value_given};

use std::alloc::{AllocError, Global};
use xs_sheet::declarations::Global as Declared;
use xs_text::TextBuf;
use xs_trace::event::Label;
use xs_value::value::Value;

/// The values of the globals at first.
pub(crate) fn values_given(
    alloc: Global,
    globals: &[Declared],
    given: &[(TextBuf, TextBuf)],
) -> Result<Vec<Option<Value>>, AllocError>
    ensures values { IfOk result (λ values.
        values.items ≡ map (value_given given.now) globals.now) }
{
    let mut values = Vec::new(alloc);
    let mut left = globals;
    while let Some((declared, others)) = left.split_first() {
        values.push(value_given(declared, given)?)?;
        left = others;
    }
    Ok(values)
}

/// The value of a global at first: a parameter may be given a text.
fn value_given(
    declared: &Declared,
    given: &[(TextBuf, TextBuf)],
) -> Result<Option<Value>, AllocError>
    ensures value { IfOk result (λ value. value ≡ value_given given.now declared.now) }
{
    if !declared.param {
        return Ok(None);
    }
    match text_given(&declared.binding.name, given) {
        Some(text) => Ok(Some(Value::Chars(text.copy()?))),
        None => Ok(None),
    }
}

/// The text that is given for a name.
fn text_given<'g>(name: &Label, given: &'g [(TextBuf, TextBuf)]) -> Option<&'g TextBuf>
    ensures { option_map (λ text. text.now) result ≡ text_given given.now name.now }
{
    let mut left = given;
    while let Some((first, others)) = left.split_first() {
        if is_name(name, &first.0) {
            return Some(&first.1);
        }
        left = others;
    }
    None
}

/// Whether a name is this one, in no namespace.
fn is_name(name: &Label, local: &TextBuf) -> bool
    ensures { result ≡ (bytes_eq name.now.uri [] && bytes_eq name.now.local local.now) }
{
    name.uri() == "" && name.local() == local.as_str()
}

/// No attempt at any of the globals was begun.
pub(crate) fn none_begun(alloc: Global, globals: &[Declared]) -> Result<Vec<bool>, AllocError>
    ensures marks { IfOk result (λ begun. begun.items ≡ map (λ g. false) globals.now) }
{
    let mut begun = Vec::new(alloc);
    let mut left = globals;
    while let Some((_declared, others)) = left.split_first() {
        begun.push(false)?;
        left = others;
    }
    Ok(begun)
}

/// The globals by their modules and lines.
pub(crate) fn in_order(alloc: Global, globals: &[Declared]) -> Result<Vec<u32>, AllocError>
    ensures order { IfOk result (λ order. IsInOrder globals.now order.items) }
{
    let mut places = placed(alloc, globals)?;
    places.sort()?;
    numbers(alloc, &places)
}

/// Each global's module, line and number.
fn placed(alloc: Global, globals: &[Declared]) -> Result<Vec<(u32, u32, u32)>, AllocError>
    ensures places { IfOk result (λ places. places.items ≡ placed 0 globals.now) }
{
    let mut places = Vec::new(alloc);
    let mut left = globals;
    let mut number: u32 = 0;
    while let Some((declared, others)) = left.split_first() {
        let site = declared.binding.site;
        places.push((site.module, site.line, number))?;
        number = number.checked_add(1).ok_or(AllocError)?;
        left = others;
    }
    Ok(places)
}

/// The numbers of some places.
fn numbers(alloc: Global, places: &[(u32, u32, u32)]) -> Result<Vec<u32>, AllocError>
    ensures numbers { IfOk result (λ numbers. numbers.items ≡ map (λ p. p.2) places.now) }
{
    let mut numbers = Vec::new(alloc);
    let mut left = places;
    while let Some((place, others)) = left.split_first() {
        numbers.push(place.2)?;
        left = others;
    }
    Ok(numbers)
}
