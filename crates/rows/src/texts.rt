//! Texts that are written in one line.

use crate::answer::{Answer, text_of};
use crate::fields::{cut_prefix, whole};
use std::alloc::{AllocError, Global};

/// Adds the bytes that a text in one line means: `\n`, `\t`, `\r` and `\\` as in PYX lines, `\s` a
/// space, `\?` a byte that UTF-8 does not have, and `<<3:ab>>` the same as `ababab`.
pub(crate) fn put_decoded(out: &Answer, text: &str) {
    for part in text.split("<<") {
        put_part(out, part);
    }
}

/// The bytes that a text in one line means.
pub(crate) fn decoded(alloc: Global, text: &str) -> Answer {
    let bytes = Answer::new(alloc);
    put_decoded(&bytes, text);
    bytes
}

/// Adds a part: where it has `>>`, the text before it as often as the number before its colon says,
/// and what follows.
fn put_part(out: &Answer, part: &str) {
    let (repeat, plain) = cut_prefix(part, ">>");
    let (count, text) = cut_prefix(repeat, ":");
    for _ in 0..whole(count) {
        put_plain(out, text);
    }
    put_plain(out, plain);
}

/// Adds a text without repetitions.
fn put_plain(out: &Answer, text: &str) {
    let mut is_escaped = false;
    for byte in text.bytes() {
        if is_escaped {
            out.put_byte(escaped_byte(byte));
            is_escaped = false;
        } else if byte == b'\\' {
            is_escaped = true;
        } else {
            out.put_byte(byte);
        }
    }
}

/// The byte that a letter means after a backslash.
fn escaped_byte(letter: u8) -> u8 {
    match letter {
        b'n' => b'\n',
        b't' => b'\t',
        b'r' => b'\r',
        b's' => b' ',
        b'?' => 0xff,
        other => other,
    }
}

/// Takes the words of a line, which are separated by single spaces; an empty line has none.
pub(crate) fn push_words(out: &Answer, words: &mut Vec<String>, line: &str) {
    if !line.is_empty() {
        for word in line.split(' ') {
            out.take(words, word_of(out.alloc, word));
        }
    }
}

/// The word that a text means.
pub(crate) fn word_of(alloc: Global, text: &str) -> Result<String, AllocError> {
    String::from_str(alloc, text_of(&decoded(alloc, text).finish()?))
}
