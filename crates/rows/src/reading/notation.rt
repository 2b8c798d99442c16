//! How a row writes bytes: `;` is a line feed, `\x{HH}` the byte of that number, `\x{}` no byte,
//! and any other character itself.

use crate::answer::Answer;
use crate::fields::{cut, cut_prefix};
use std::str::from_utf8;

/// Adds the bytes that a text of a row represents.
pub(crate) fn put_decoded(out: &Answer, written: &str) {
    let (plain, numbered) = cut(written, "\\x{");
    put_plain(out, plain);
    if !numbered.is_empty() {
        for piece in numbered.split("\\x{") {
            put_numbered(out, piece);
        }
    }
}

// Adds the byte with the number before a bracket, and what is after the bracket.
fn put_numbered(out: &Answer, piece: &str) {
    let (digits, after) = cut_prefix(piece, "}");
    if let Ok(byte) = u8::from_str_radix(digits, 16) {
        out.put_byte(byte);
    }
    put_plain(out, after);
}

// Adds a text without numbers.
fn put_plain(out: &Answer, text: &str) {
    for byte in text.as_bytes() {
        out.put_byte(if *byte == b';' { b'\n' } else { *byte });
    }
}

/// Adds bytes in quotes. Of bytes that are not UTF-8 each that is not ASCII is written as its
/// number.
pub(crate) fn quote(out: &Answer, bytes: &[u8]) {
    let is_text = from_utf8(bytes).is_ok();
    out.put("\"");
    for byte in bytes {
        match *byte {
            b'\n' => out.put(";"),
            b';' | ..=0x1f | 0x7f => out.put_code(*byte),
            0x80.. if !is_text => out.put_code(*byte),
            _ => out.put_byte(*byte),
        }
    }
    out.put("\"");
}

/// Adds a text in quotes, after a word.
pub(crate) fn put_quoted(out: &Answer, word: &str, text: &str) {
    out.put(word);
    quote(out, text.as_bytes());
}
