//! Row files: lines that are copied, settings, and rows whose answers are computed.

use crate::answer::{Answer, text_of};
use crate::expressions::answers::add_answer;
use crate::expressions::settings::Settings;
use crate::fields::{is_comment, put_input};
use crate::texts::decoded;
use std::fs;
use std::rt::Files;

/// Adds the rows of a file.
pub(crate) fn put_rows<R: Files + AllocGlobal>(out: &Answer, rt: &R, text: &str) {
    match Settings::new(rt.alloc()) {
        Ok(mut settings) => {
            for line in text.lines() {
                add_line(out, rt, &mut settings, line);
                out.put_byte(b'\n');
            }
            drop(settings);
        }
        Err(_) => out.refuse(),
    }
}

// Adds a line as it is or with its answer, and sets what a setting says.
fn add_line<R: Files + AllocGlobal>(out: &Answer, rt: &R, settings: &mut Settings, line: &str) {
    if let Some(setting) = line.strip_prefix("= ") {
        out.put(line);
        set(out, rt, settings, setting);
    } else if is_comment(line) {
        out.put(line);
    } else {
        add_row(out, settings, line);
    }
}

// Sets what a setting says.
fn set<R: Files + AllocGlobal>(out: &Answer, rt: &R, settings: &mut Settings, setting: &str) {
    let setting = decoded(settings.alloc, setting).into_bytes(out);
    let setting = text_of(&setting);
    match setting.strip_prefix("document ") {
        Some(document) => set_document(out, rt, settings, document),
        None => settings.set(out, setting),
    }
}

// Sets the document, by its lines or the name of their file.
fn set_document<R: Files + AllocGlobal>(
    out: &Answer,
    rt: &R,
    settings: &mut Settings,
    document: &str,
) {
    if document.ends_with('\n') {
        return settings.set_document(out, document);
    }
    match fs::read_to_string(rt, document) {
        Ok(lines) => settings.set_document(out, lines.as_str()),
        Err(_) => out.put(" no such file"),
    }
}

// Adds a row: its input as it is, and its answer, which is `none` where it has no text.
fn add_row(out: &Answer, settings: &Settings, line: &str) {
    let input = put_input(out, line);
    let input = decoded(settings.alloc, input).into_bytes(out);
    let answer = Answer::new(settings.alloc);
    add_answer(&answer, settings, text_of(&input));
    out.put_result(answer);
}
