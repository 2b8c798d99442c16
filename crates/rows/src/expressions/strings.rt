//! Strings, by the calls of `xs_strings`.

use crate::answer::{Answer, text_of};
use crate::expressions::calls::Call;
use crate::expressions::numbers::number;
use crate::fields::cut;
use std::alloc::AllocError;
use xs_strings::normalization::normalize_space;
use xs_strings::positions::{char_count, substring};
use xs_strings::searching::{substring_after, substring_before};
use xs_strings::translation::translate;

/// Adds the answer of a call with strings.
pub(crate) fn add_answer(out: &Answer, call: Call, rest: &str) {
    if let Call::StringLength = call {
        return out.put_whole(char_count(rest));
    }
    let mut text = Vec::new(out.alloc);
    out.note(add_string(&mut text, call, rest));
    out.put_quoted(text_of(&text));
}

// Adds the string that a call gives.
fn add_string(out: &mut Vec<u8>, call: Call, rest: &str) -> Result<(), AllocError> {
    let (text, other) = cut(rest, " | ");
    match call {
        Call::NormalizeSpace => normalize_space(out, rest),
        Call::Substring => add_substring(out, text, other),
        Call::SubstringBefore => substring_before(out, text, other),
        Call::SubstringAfter => substring_after(out, text, other),
        _ => {
            let (from, to) = cut(other, " | ");
            translate(out, text, from, to)
        }
    }
}

// Adds a part of a string: from a position on, to the end or so many characters.
fn add_substring(out: &mut Vec<u8>, text: &str, positions: &str) -> Result<(), AllocError> {
    match positions.split_once(" | ") {
        Some((first, count)) => substring(out, text, number(first), Some(number(count))),
        None => substring(out, text, number(positions), None),
    }
}
