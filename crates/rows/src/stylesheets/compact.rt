//! Stylesheets and documents from their compact form, which the row files explain.

use crate::answer::{Answer, text_of};
use crate::fields::cut_prefix;
use crate::library::file_of;
use std::alloc::Global;
use xs_outside::MemLibrary;

/// The lines with which a stylesheet begins.
const START: &str =
    "(xsl:stylesheet\nAxmlns:xsl http://www.w3.org/1999/XSL/Transform\nAversion 1.0\n";

/// The signs of short lines, and what is written before and after what follows the sign.
const SHORT: &[(char, &str, &str)] = &[
    ('+', "(xsl:import\nAhref ", "\n)xsl:import\n"),
    ('=', "(xsl:include\nAhref ", "\n)xsl:include\n"),
    ('~', "(xsl:template\nAmatch ", "\n)xsl:template\n"),
];

/// Adds the end of the last element that is open.
fn put_end(out: &Answer, open: &mut Vec<&str>) {
    if let Some(name) = open.pop() {
        out.put_in(b')', name, b'\n');
    }
}

/// Adds the element that a short line means, and says whether the line is a short one.
fn put_short(out: &Answer, line: &str) -> bool {
    for (sign, start, end) in SHORT {
        if let Some(text) = line.strip_prefix(*sign) {
            out.put_both(start, text);
            out.put(end);
            return true;
        }
    }
    false
}

/// Adds a line, or the lines for which a short one stands; a bracket alone ends the last element
/// that is open.
fn put_line<'t>(out: &Answer, open: &mut Vec<&'t str>, line: &'t str) {
    if line == ")" {
        put_end(out, open);
    } else if !line.is_empty() && !put_short(out, line) {
        out.put_line(line);
        if let Some(name) = line.strip_prefix('(') {
            out.take(open, Ok(name));
        }
    }
}

/// A module: lines with semicolons between them, inside an `xsl:stylesheet` unless they begin with
/// an exclamation mark; what is open at its end is ended.
pub(crate) fn module(alloc: Global, lines: &str) -> Answer {
    let out = Answer::new(alloc);
    let mut open = Vec::new(alloc);
    let whole = lines.strip_prefix('!');
    if whole.is_none() {
        out.put(START);
        out.take(&mut open, Ok("xsl:stylesheet"));
    }
    for line in whole.unwrap_or(lines).split(';') {
        put_line(&out, &mut open, line);
    }
    for _ in 0..open.len() {
        put_end(&out, &mut open);
    }
    out
}

/// A library of modules: the first one is `s`, and each other one, after a `^`, begins with its
/// name and a colon.
pub(crate) fn library(out: &Answer, modules: &str) -> MemLibrary {
    let named = Answer::new(out.alloc);
    named.put_both("s:", modules);
    let mut files = Vec::new(out.alloc);
    for named in text_of(&named.into_bytes(out)).split('^') {
        let (name, lines) = cut_prefix(named, ":");
        let bytes = module(out.alloc, lines).into_bytes(out);
        out.take(&mut files, file_of(out.alloc, name, bytes));
    }
    MemLibrary::new(out.alloc, files, Vec::new(out.alloc))
}
