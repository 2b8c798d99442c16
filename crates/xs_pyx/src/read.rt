//! Reads the first line of a document.

ghost use Rattle.std.specs.Prelude.{◌≡◌, ◌<◌, ◌-◌, ◌∷◌, ◌↔◌, IfOk, IfSome, IsErrOf, IsTrue, IsSome};
ghost use Rattle.std.specs.Prelude.{drop, false, length, true};
ghost use Rattle.std.specs.Str.{IsCharBoundary};
ghost use Rattle.memchr.specs.Find.{IsFirstByte};
ghost use Rattle.xs_text.specs.Escapes.{unescaped};
ghost use Rattle.xs_pyx.specs.Row.{first_row, behind_row, rows_of, is_line_feed};
ghost use Rattle.xs_pyx.specs.Reading.{reading, kind_reading, rest_reading, begins_line, line_of};
ghost use Rattle.xs_pyx.specs.Reading.{ends_name, name_in, says, value_in, data_of};
ghost use Rattle.xs_pyx.specs.Results.{Reads, Finds, SaysLine};
ghost use Rattle.xs_pyx.specs.Views.{data_shown, line_shown, reported, HasReadable, IsReadable};
ghost use Rattle.xs_pyx.specs.Views.{IsReadableData, IsViewing, has_backslash};

use crate::fault::Fault;
use crate::first_bytes::{ATTRIBUTE, COMMENT, END, INSTRUCTION, START, TEXT, begins_line};
use crate::line::{Line, LineFault};
use crate::rows::split_text;
use crate::view::{Data, LineView};
use memchr::memchr;
use std::alloc::Global;
use std::str::from_utf8;
use xs_text::is_well_escaped;

/// The bytes of the first line without its line feed, whether a line feed ends it, and the bytes
/// behind it.
fn split_row(bytes: &[u8]) -> (&[u8], bool, &[u8])
    ensures first { record { bytes = result.0.now; ended = result.1 } ≡ first_row bytes.now }
    ensures behind { result.2.now ≡ behind_row bytes.now }
    ensures shorter { 0 < length bytes.now → length result.2.now < length bytes.now }
    ensures taken { drop (length bytes.now - length result.2.now) bytes.now ≡ behind_row bytes.now }
{
    match memchr(b'\n', bytes) {
        Some(end) => (&bytes[..end], true, &bytes[end + 1..]),
        None => (bytes, false, &[]),
    }
}

/// Whether some byte of the text is a backslash.
fn has_backslash(text: &str) -> bool
    ensures { result ≡ has_backslash text.now }
{
    memchr(b'\\', text.as_bytes()).is_some()
}

/// Whether no byte of the text is a backslash. `is_plain` only where that is known; then the text
/// is not searched.
#[inline(always)]
fn is_itself(text: &str, is_plain: bool) -> bool
    requires { is_plain ≡ true → has_backslash text.now ≡ false }
    ensures { result ≡ true → has_backslash text.now ≡ false }
{
    if is_plain {
        return true;
    }
    !has_backslash(text)
}

/// A well escaped text as the data that it shows. `is_plain` only where it holds no backslash.
#[inline(always)]
#[tactic(auto, using(crate::proofs::ReadLemmas::unescaped_itself))]
fn view_data(written: &str, is_plain: bool) -> Data<'_>
    requires escaped { IsSome (unescaped written.now) }
    requires plain { is_plain ≡ true → has_backslash written.now ≡ false }
    ensures shown { data_shown result ≡ data_of written.now }
    ensures readable { IsReadableData result }
{
    if is_itself(written, is_plain) {
        Data::Plain(written)
    } else {
        Data::Escaped(written)
    }
}

/// Where the first space stands. The names that it ends are mostly short, so it is sought byte by
/// byte.
#[inline(always)]
fn find_space(bytes: &[u8]) -> Option<usize>
    ensures { IsFirstByte ends_name bytes.now result }
{
    for (place, byte) in bytes.iter().enumerate() {
        if *byte == b' ' {
            return Some(place);
        }
    }
    None
}

/// What stands before the first space, and what stands behind it; all and nothing where there is
/// none.
pub(crate) fn split_name(rest: &str) -> (&str, &str)
    ensures name { result.0.now ≡ name_in rest.now }
    ensures value { result.1.now ≡ value_in rest.now }
{
    match find_space(rest.as_bytes()) {
        Some(end) => (&rest[..end], &rest[end + 1..]),
        None => (rest, ""),
    }
}

/// The attribute of a line behind its first byte.
#[tactic(auto, using(crate::proofs::LineLemmas::value_escaped, crate::proofs::ReadLemmas::value_plain))]
fn view_attribute(rest: &str, is_plain: bool) -> LineView<'_>
    requires escaped { IsSome (unescaped rest.now) }
    requires plain { is_plain ≡ true → has_backslash rest.now ≡ false }
    ensures shown { line_shown result
        ≡ Line.Attr (name_in rest.now) (data_of (value_in rest.now)) }
    ensures readable { IsReadable result }
{
    let (name, value) = split_name(rest);
    LineView::Attr {
        name,
        value: view_data(value, is_plain),
    }
}

/// The attribute of a line without a backslash behind its first byte.
#[inline(always)]
#[tactic(auto, using(crate::proofs::ReadLemmas::unescaped_itself, crate::proofs::ReadLemmas::value_plain))]
fn view_plain_attribute(rest: &str) -> LineView<'_>
    requires { has_backslash rest.now ≡ false }
    ensures shown { line_shown result
        ≡ Line.Attr (name_in rest.now) (data_of (value_in rest.now)) }
    ensures readable { IsReadable result }
{
    let (name, value) = split_name(rest);
    LineView::Attr {
        name,
        value: Data::Plain(value),
    }
}

/// The processing instruction of a line behind its first byte.
#[tactic(auto, using(crate::proofs::LineLemmas::value_escaped, crate::proofs::ReadLemmas::value_plain))]
fn view_instruction(rest: &str, is_plain: bool) -> LineView<'_>
    requires escaped { IsSome (unescaped rest.now) }
    requires plain { is_plain ≡ true → has_backslash rest.now ≡ false }
    ensures shown { line_shown result
        ≡ Line.Pi (name_in rest.now) (data_of (value_in rest.now)) }
    ensures readable { IsReadable result }
{
    let (target, value) = split_name(rest);
    LineView::Pi {
        target,
        value: view_data(value, is_plain),
    }
}

/// The line with this first byte and this rest, which is well escaped. `is_plain` only where it
/// holds no backslash.
#[inline(always)]
fn view_kind(kind: u8, rest: &str, is_plain: bool) -> LineView<'_>
    requires begins { IsTrue (begins_line kind) }
    requires escaped { IsSome (unescaped rest.now) }
    requires plain { is_plain ≡ true → has_backslash rest.now ≡ false }
    ensures shown { line_shown result ≡ line_of kind rest.now }
    ensures readable { IsReadable result }
{
    match kind {
        START => LineView::Start(rest),
        ATTRIBUTE => view_attribute(rest, is_plain),
        TEXT => LineView::Chars(view_data(rest, is_plain)),
        END => LineView::End(rest),
        INSTRUCTION => view_instruction(rest, is_plain),
        COMMENT => LineView::Comment(view_data(rest, is_plain)),
        _ => unreachable!(),
    }
}

/// Whether each backslash of the text begins a pair, as where there is none.
#[tactic(auto, using(crate::proofs::ReadLemmas::unescaped_itself))]
fn is_readable(text: &str, is_plain: bool) -> bool
    requires { is_plain ≡ true → has_backslash text.now ≡ false }
    ensures { IsTrue result ↔ IsSome (unescaped text.now) }
{
    is_itself(text, is_plain) || is_well_escaped(text.as_bytes())
}

/// What a line with this first byte says. `is_plain` only where the rest holds no backslash.
#[inline(always)]
fn view_rest(kind: u8, rest: &str, ended: bool, is_plain: bool) -> Result<LineView<'_>, Fault>
    requires begins { IsTrue (begins_line kind) }
    requires plain { is_plain ≡ true → has_backslash rest.now ≡ false }
    ensures { IsViewing result (rest_reading kind rest.now ended) }
{
    if !is_readable(rest, is_plain) {
        return Err(Fault::BadEscape);
    }
    if !ended {
        return Err(Fault::NoFinalLineFeed);
    }
    Ok(view_kind(kind, rest, is_plain))
}

/// What a line that is text says. `is_plain` only where it holds no backslash.
#[inline(never)]
fn view_text(text: &str, ended: bool, is_plain: bool) -> Result<LineView<'_>, Fault>
    requires { is_plain ≡ true → has_backslash text.now ≡ false }
    ensures { IsViewing result (kind_reading text.now ended) }
{
    match text.as_bytes() {
        [kind, ..] if begins_line(*kind) => view_rest(*kind, &text[1..], ended, is_plain),
        _ => Err(Fault::BadLine),
    }
}

/// What a line without a backslash says whose end is a line feed.
#[inline(always)]
fn view_plain(text: &str) -> Result<LineView<'_>, Fault>
    requires { has_backslash text.now ≡ false }
    ensures { IsViewing result (kind_reading text.now true) }
{
    match text.as_bytes() {
        [kind, ..] if begins_line(*kind) => Ok(view_plain_rest(*kind, &text[1..])),
        _ => Err(Fault::BadLine),
    }
}

/// The line with this first byte and this rest, which holds no backslash.
#[inline(always)]
#[tactic(auto, using(crate::proofs::ReadLemmas::unescaped_itself, crate::proofs::ReadLemmas::value_plain))]
fn view_plain_rest(kind: u8, rest: &str) -> LineView<'_>
    requires begins { IsTrue (begins_line kind) }
    requires plain { has_backslash rest.now ≡ false }
    ensures shown { says (line_shown result) ≡ rest_reading kind rest.now true }
    ensures readable { IsReadable result }
{
    match kind {
        START => LineView::Start(rest),
        ATTRIBUTE => view_plain_attribute(rest),
        TEXT => LineView::Chars(Data::Plain(rest)),
        END => LineView::End(rest),
        INSTRUCTION => view_instruction(rest, true),
        COMMENT => LineView::Comment(Data::Plain(rest)),
        _ => unreachable!(),
    }
}

/// What a line that is text says, of which the most are plain. `is_plain` only where it holds no
/// backslash.
#[inline(always)]
fn view_found(text: &str, ended: bool, is_plain: bool) -> Result<LineView<'_>, Fault>
    requires { is_plain ≡ true → has_backslash text.now ≡ false }
    ensures { IsViewing result (kind_reading text.now ended) }
{
    if !is_plain {
        return view_text(text, ended, false);
    }
    if !ended {
        return view_text(text, false, true);
    }
    view_plain(text)
}

/// What a line by itself says.
fn view_row(bytes: &[u8], ended: bool) -> Result<LineView<'_>, Fault>
    ensures { IsViewing result (reading (record { bytes = bytes.now; ended = ended })) }
{
    match from_utf8(bytes) {
        Ok(text) => view_text(text, ended, false),
        Err(_) => Err(Fault::BadUtf8),
    }
}

/// The first line of a document as it stands in its bytes, and how many of them it takes, the line
/// feed at its end among them. No memory.
///
/// There is no line exactly where `bytes` is empty, and an error is the fault of the first line by
/// itself: the answer is that of `next_line`, which never runs out of memory here.
pub fn view_line(bytes: &[u8]) -> Result<Option<(LineView<'_>, usize)>, Fault>
    ensures first { Reads (reported result) bytes.now }
    ensures lines { Finds (reported result) bytes.now }
    ensures readable { HasReadable result }
    ensures rows { 0 < length bytes.now
        → rows_of bytes.now ≡ first_row bytes.now ∷ rows_of (behind_row bytes.now) }
{
    if bytes.is_empty() {
        return Ok(None);
    }
    let (row, ended, behind) = split_row(bytes);
    let view = view_row(row, ended)?;
    Ok(Some((view, bytes.len() - behind.len())))
}

/// What a line of a text says by itself. `is_plain` only where it holds no backslash.
#[inline(always)]
fn view_text_row(text: &str, ended: bool, is_plain: bool) -> Result<LineView<'_>, Fault>
    requires { is_plain ≡ true → has_backslash text.now ≡ false }
    ensures { IsViewing result (reading (record { bytes = text.now; ended = ended })) }
{
    view_found(text, ended, is_plain)
}

/// `view_line` for a text, which is not tried for UTF-8 again.
pub(crate) fn view_text_line(text: &str) -> Result<Option<(LineView<'_>, usize)>, Fault>
    ensures first { Reads (reported result) text.now }
    ensures lines { Finds (reported result) text.now }
    ensures readable { HasReadable result }
    ensures rows { 0 < length text.now
        → rows_of text.now ≡ first_row text.now ∷ rows_of (behind_row text.now) }
    ensures cut { IfOk result (λ found. IfSome found (λ found. IsCharBoundary text.now found.1)) }
{
    if text.is_empty() {
        return Ok(None);
    }
    let row = split_text(text);
    let view = view_text_row(row.text, row.ended, row.is_plain)?;
    Ok(Some((view, row.taken)))
}

/// The first line of a document, and how many bytes it takes, the line feed at its end among them.
///
/// There is no line exactly where `bytes` is empty. `Bad` has the fault of the first line by
/// itself; `NoMemory` says that memory ran out for a line that has no fault. `lines` says so by the
/// relation between bytes and whole lines, `first` by the function `reading`.
pub fn next_line(alloc: Global, bytes: &[u8]) -> Result<Option<(Line, usize)>, LineFault>
    ensures first { Reads result bytes.now }
    ensures lines { Finds result bytes.now }
    ensures rows { 0 < length bytes.now
        → rows_of bytes.now ≡ first_row bytes.now ∷ rows_of (behind_row bytes.now) }

    // A fault is reported even where there is no memory.
    ensures memory { IsErrOf result LineFault.NoMemory → SaysLine (reading (first_row bytes.now)) }
{
    match view_line(bytes)? {
        Some((view, taken)) => Ok(Some((view.to_line(alloc)?, taken))),
        None => Ok(None),
    }
}

/// The bytes behind the first line. No memory.
pub fn skip_line(bytes: &[u8]) -> &[u8]
    ensures behind { result.now ≡ behind_row bytes.now }
    ensures shorter { 0 < length bytes.now → length result.now < length bytes.now }
    ensures rows { 0 < length bytes.now
        → rows_of bytes.now ≡ first_row bytes.now ∷ rows_of (behind_row bytes.now) }
{
    split_row(bytes).2
}
