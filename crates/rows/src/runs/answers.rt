//! What a run left, as a row says it.

use crate::answer::{Answer, text_of};
use crate::runs::setup::Outcome;
use xs_engine::Report;
use xs_words::USAGE;

/// Adds the parts of an answer, except those that are empty. The lines for the user are as they
/// are; one that has no end is marked.
pub(crate) fn put_parts(out: &Answer, outcome: &Outcome) {
    out.put_count("= status ", outcome.report.status as u64);
    if outcome.report.ticks > 0 {
        out.put_count("\n= ticks ", outcome.report.ticks);
    }
    out.put_byte(b'\n');
    put_result(out, text_of(outcome.result.held()));
    let lines = text_of(outcome.lines.held());
    if !lines.is_empty() {
        out.put("= lines\n");
        out.put(lines);
        out.put_if(!lines.ends_with('\n'), " (no line end)\n");
    }
}

/// Adds how many pieces were claimed, how many evaluated in their place, and how many claims there
/// are, where a run had more than one piece.
pub(crate) fn put_pieces(out: &Answer, report: &Report) {
    if report.pieces > 1 || report.inline != 0 {
        out.put_count("= pieces ", report.pieces);
        out.put_count(" ", report.inline);
        out.put_count(" ", report.claims.len() as u64);
        out.put_byte(b'\n');
    }
}

/// Adds a result: as it is where it looks like PYX lines, and else each of its lines after a sign,
/// with escapes.
fn put_result(out: &Answer, text: &str) {
    if text.starts_with('(') && text.ends_with('\n') {
        out.put("= result\n");
        out.put(text);
    } else if !text.is_empty() {
        out.put("= text\n");
        for line in text.split_inclusive('\n') {
            out.put_byte(b'-');
            out.put_escaped(line);
            out.put_byte(b'\n');
        }
    }
}

/// Adds an answer in one line: status, ticks, the lines for the user and the result, without those
/// that are empty.
pub(crate) fn put_fields(out: &Answer, outcome: &Outcome) {
    put_spent(
        out,
        outcome.report.status,
        outcome.report.ticks,
        outcome.lines.held(),
    );
    let result = outcome.result.held();
    if !result.is_empty() {
        put_short(out, result);
    }
}

/// Adds a status, ticks and the lines for the user.
pub(crate) fn put_spent(out: &Answer, status: u8, ticks: u64, lines: &[u8]) {
    out.put_whole(status as u64);
    out.put_count(" | ", ticks);
    for line in text_of(lines).split_inclusive('\n') {
        put_line(out, line);
    }
}

/// Adds a result in one line; a long one of a single letter as a row says it, `<<300:a>>`.
pub(crate) fn put_short(out: &Answer, bytes: &[u8]) {
    out.put(" | \"");
    if bytes.len() > 80 && is_run(bytes) {
        out.put_count("<<", bytes.len() as u64);
        out.put_signed(b':', text_of(&bytes[..1]));
        out.put(">>");
    } else {
        out.put_escaped(text_of(bytes));
    }
    out.put_byte(b'"');
}

/// Whether bytes are all the same.
fn is_run(bytes: &[u8]) -> bool {
    for byte in bytes {
        if Some(byte) != bytes.first() {
            return false;
        }
    }
    true
}

/// Adds a line for the user, without its end.
fn put_line(out: &Answer, line: &str) {
    let whole = line.strip_suffix('\n');
    let text = whole.unwrap_or(line);
    out.put(" | ");
    out.put(if text == USAGE { "usage" } else { text });
    out.put_if(whole.is_none(), " (no line end)");
}
