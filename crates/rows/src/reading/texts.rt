//! Rows on escapes, names and white space.

use crate::answer::Answer;
use crate::reading::notation::{put_quoted, quote};
use crate::reading::subjects::Subject;
use xs_text::{
    TextFault, escape_into, is_blank, is_ncname, is_space, is_well_escaped, split_qname,
    unescape_into,
};

/// Adds a text as PYX data.
pub(crate) fn put_escapes(out: &Answer, text: &str) {
    let mut escaped = Vec::new(out.alloc);
    out.note(escape_into(&mut escaped, text));
    quote(out, &escaped);
}

/// Adds whether a text is PYX data, and the text that it shows.
pub(crate) fn put_data(out: &Answer, data: &str) {
    if is_well_escaped(data.as_bytes()) {
        out.put("well escaped, ");
    }
    let mut text = Vec::new(out.alloc);
    match unescape_into(&mut text, data) {
        Ok(()) => quote(out, &text),
        Err(TextFault::BadEscape) => out.put("bad escape"),
        Err(TextFault::NoMemory) => out.refuse(),
    }
}

/// Adds the prefix and the local part of a qualified name.
pub(crate) fn put_name(out: &Answer, text: &str) {
    match split_qname(text) {
        Some((prefix, local)) => {
            put_quoted(out, "prefix ", prefix);
            put_quoted(out, ", local ", local);
        }
        None => out.put("no name"),
    }
}

/// Adds where each of some code points may be in a name without a colon, or which of them are white
/// space.
pub(crate) fn put_characters(out: &Answer, subject: &Subject, codes: &str) {
    let mut is_first = true;
    for code in codes.split(' ') {
        out.put_if(!is_first, " ");
        match subject {
            Subject::WhiteSpace => put_truth(out, is_space(character(code).unwrap_or('\u{fffd}'))),
            _ => put_place_in_names(out, code),
        }
        is_first = false;
    }
}

// Adds where the character with a code point may be in a name without a colon.
fn put_place_in_names(out: &Answer, code: &str) {
    let Some(c) = character(code) else {
        return out.put("none");
    };
    match format!(in out.alloc; "a{c}") {
        Ok(name) => out.put(place_in_names(name.as_str())),
        Err(_) => out.refuse(),
    }
}

// Where the character after the letter a may be in a name without a colon.
fn place_in_names(name: &str) -> &'static str {
    if is_ncname(name.strip_prefix('a').unwrap_or("")) {
        "first"
    } else if is_ncname(name) {
        "later"
    } else {
        "none"
    }
}

// The character with a hexadecimal code point, which a surrogate has not.
fn character(code: &str) -> Option<char> {
    char::from_u32(u32::from_str_radix(code, 16).ok()?)
}

/// Adds whether a text is nothing but white space.
pub(crate) fn put_blank(out: &Answer, text: &str) {
    put_truth(out, is_blank(text.as_bytes()));
}

// Adds a truth value in a word.
fn put_truth(out: &Answer, truth: bool) {
    out.put(if truth { "yes" } else { "no" });
}
