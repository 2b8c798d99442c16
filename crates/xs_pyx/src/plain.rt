//! Lines of a text in which no backslash is, as most are, by their first bytes. They are handed on
//! as they stand, so that nothing is put together that is taken apart at once.

ghost use Rattle.std.specs.Prelude.{◌≡◌, ◌<◌, ◌∷◌, IsTrue, false, length, true};
ghost use Rattle.xs_pyx.specs.Reading.{begins_line, data_of, kind_reading, line_of, name_in};
ghost use Rattle.xs_pyx.specs.Reading.{reading, says, value_in};
ghost use Rattle.xs_pyx.specs.Results.{TakesLine};
ghost use Rattle.xs_pyx.specs.Row.{behind_row, first_row, rows_of};
ghost use Rattle.xs_pyx.specs.Views.{CanCut, begins_plain, bytes_left, has_backslash};
ghost use Rattle.xs_pyx.specs.Views.{has_plain_line, says_line};
ghost use Rattle.std.specs.Str.{IsCharBoundary};

use crate::first_bytes::begins_line;
use crate::read::split_name;
use crate::rest::Rest;
use crate::rows::split_text;

/// A first line without a backslash.
#[derive(Clone, Copy, Debug)]
pub struct PlainLine<'a> {
    /// Its first byte.
    pub kind: u8,
    /// What stands after that.
    pub rest: &'a str,
    /// How many bytes it takes, the line feed at its end among them; none where there is no such
    /// line.
    pub size: usize,
}

impl<'a> Rest<'a> {
    /// The first line, exactly where it is known to be UTF-8, says something, has no backslash, and
    /// ends with a line feed. No memory.
    #[inline(always)]
    pub fn plain_line(self) -> PlainLine<'a>
        ensures takes { 0 < result.size
            → TakesLine (bytes_left self.entry) (line_of result.kind result.rest.now) result.size }
        ensures begins { 0 < result.size → IsTrue (begins_line result.kind) }
        ensures plain { 0 < result.size → has_backslash result.rest.now ≡ false }
        ensures rows { 0 < length (bytes_left self.entry) → rows_of (bytes_left self.entry)
            ≡ first_row (bytes_left self.entry) ∷ rows_of (behind_row (bytes_left self.entry)) }
        ensures cut { 0 < result.size → CanCut self.entry result.size }
        ensures none { result.size ≡ 0 → has_plain_line self.entry ≡ false }
    {
        match self {
            Rest::Text(text) => plain_text_line(text),
            Rest::Bytes(_) => no_line(),
        }
    }
}

/// No such line.
#[inline(always)]
fn no_line<'a>() -> PlainLine<'a>
    ensures { result.size ≡ 0 }
{
    PlainLine {
        kind: 0,
        rest: "",
        size: 0,
    }
}

/// The first line of a text, if it is such a one.
#[inline(always)]
fn plain_text_line(text: &str) -> PlainLine<'_>
    ensures takes { 0 < result.size
        → TakesLine text.now (line_of result.kind result.rest.now) result.size }
    ensures begins { 0 < result.size → IsTrue (begins_line result.kind) }
    ensures plain { 0 < result.size → has_backslash result.rest.now ≡ false }
    ensures cut { 0 < result.size → IsCharBoundary text.now result.size }
    ensures none { result.size ≡ 0 → begins_plain text.now ≡ false }
{
    if text.is_empty() {
        return no_line();
    }
    let row = split_text(text);
    if !row.ended {
        return no_line();
    }
    if !row.is_plain {
        return no_line();
    }
    plain_row(row.text, row.taken)
}

/// The line that is this text, if it is such a one and has a line feed after it. It takes so many
/// bytes.
#[inline(always)]
fn plain_row(text: &str, size: usize) -> PlainLine<'_>
    requires plain { has_backslash text.now ≡ false }
    requires some { 0 < size }
    ensures says { 0 < result.size → reading (record { bytes = text.now; ended = true })
        ≡ says (line_of result.kind result.rest.now) }
    ensures size { 0 < result.size → result.size ≡ size }
    ensures begins { 0 < result.size → IsTrue (begins_line result.kind) }
    ensures plain { 0 < result.size → has_backslash result.rest.now ≡ false }
    ensures none { result.size ≡ 0
        → says_line (reading (record { bytes = text.now; ended = true })) ≡ false }
{
    plain_kind(text, size)
}

/// The same, where it is known that the text is UTF-8.
#[inline(always)]
#[tactic(auto, using(crate::proofs::ReadLemmas::unescaped_itself))]
fn plain_kind(text: &str, size: usize) -> PlainLine<'_>
    requires plain { has_backslash text.now ≡ false }
    requires some { 0 < size }
    ensures says { 0 < result.size
        → kind_reading text.now true ≡ says (line_of result.kind result.rest.now) }
    ensures size { 0 < result.size → result.size ≡ size }
    ensures begins { 0 < result.size → IsTrue (begins_line result.kind) }
    ensures plain { 0 < result.size → has_backslash result.rest.now ≡ false }
    ensures none { result.size ≡ 0 → says_line (kind_reading text.now true) ≡ false }
{
    match text.as_bytes() {
        [kind, ..] if begins_line(*kind) => PlainLine {
            kind: *kind,
            rest: &text[1..],
            size,
        },
        _ => no_line(),
    }
}

/// The name and the value of an attribute line without a backslash, after its first byte.
#[inline(always)]
#[tactic(auto, using(crate::proofs::ReadLemmas::unescaped_itself, crate::proofs::ReadLemmas::value_plain))]
pub fn plain_attribute(rest: &str) -> (&str, &str)
    requires { has_backslash rest.now ≡ false }
    ensures name { result.0.now ≡ name_in rest.now }
    ensures value { result.1.now ≡ data_of (value_in rest.now) }
{
    split_name(rest)
}

/// The data of a text without a backslash: the text itself.
#[inline(always)]
#[tactic(auto, using(crate::proofs::ReadLemmas::unescaped_itself))]
pub fn plain_text(text: &str) -> &str
    requires { has_backslash text.now ≡ false }
    ensures { result.now ≡ data_of text.now }
{
    text
}
