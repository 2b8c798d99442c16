//! Texts that are repeated with numbers.

use crate::answer::Answer;
use crate::fields::{cut, whole};

/// Adds what is after a number, so many times. In it `#` is the number of the time, from 0, and
/// `#+` the next one.
pub(crate) fn put_repeated(out: &Answer, repeat: &str) {
    let (count, text) = cut(repeat, " ");
    let (first, rest) = cut(text, "#");
    for number in 0..whole(count) {
        out.put(first);
        if first.len() < text.len() {
            for part in rest.split('#') {
                put_part(out, part, number);
            }
        }
    }
}

// Adds a number, or the next one, and what is after it.
fn put_part(out: &Answer, part: &str, number: u32) {
    let next = part.strip_prefix('+');
    out.put_whole((number as u64).saturating_add(next.is_some() as u64));
    out.put(next.unwrap_or(part));
}
