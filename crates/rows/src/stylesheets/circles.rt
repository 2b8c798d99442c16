//! The first circle among declarations of attribute sets (XSLT 1.0, 7.1.4).

use crate::answer::Answer;
use crate::fields::{cut, cut_prefix, whole};
use xs_static::circles::{Declaration, Place, first_circle};

/// A declaration: its place, a module and a line with a point between them, its name and the names
/// that it uses, each with its URI, if it has one.
fn declaration<'a>(out: &Answer, text: &'a str) -> Declaration<'a> {
    let (place, rest) = cut(text, " ");
    let (module, line) = cut_prefix(place, ".");
    let (name, used) = cut(rest, " ");
    let mut sets = Vec::new(out.alloc);
    for name in used.split_whitespace() {
        out.take(&mut sets, Ok(cut_prefix(name, ":")));
    }
    Declaration {
        place: Place {
            module: whole(module),
            line: whole(line),
        },
        name: cut_prefix(name, ":"),
        sets,
    }
}

/// Adds the place of the first circular one of declarations, which have commas between them.
pub(crate) fn put_first_circle(out: &Answer, input: &str) {
    let mut declarations = Vec::new(out.alloc);
    for text in input.split(',') {
        if !text.is_empty() {
            out.take(&mut declarations, Ok(declaration(out, text)));
        }
    }
    match first_circle(out.alloc, &declarations) {
        Ok(Some(place)) => out.put_pair(place.module, b'.', place.line),
        Ok(None) => (),
        Err(_) => out.refuse(),
    }
}
