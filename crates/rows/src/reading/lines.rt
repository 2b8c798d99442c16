//! Rows on single lines.

ghost use Rattle.xs_pyx.specs.Views.{IsReadable, IsReadableData};

use crate::answer::Answer;
use crate::reading::notation::{put_quoted, quote};
use xs_pyx::{Data, Line, LineFault, LineView, Rest, next_line, skip_line, write_line};

/// Adds what the first line of some bytes says, how many bytes it takes, how it is written, and
/// what it leaves.
pub(crate) fn put_first(out: &Answer, bytes: &[u8]) {
    match next_line(out.alloc, bytes) {
        Ok(Some((line, size))) => put_found(out, line, size),
        Ok(None) => out.put("nothing"),
        Err(LineFault::Bad { number }) => out.put_count("fault ", number as u64),
        Err(LineFault::NoMemory) => out.refuse(),
    }
    let rest = skip_line(bytes);
    if !rest.is_empty() {
        out.put(", leaves ");
        quote(out, rest);
    }
}

// Adds what a line says, how many bytes it took, and how it is written.
fn put_found(out: &Answer, line: Line, size: usize) {
    put_line(out, &line);
    out.put_count(", ", size as u64);
    out.put(" bytes, written ");
    let mut written = Vec::new(out.alloc);
    out.note(write_line(&mut written, &line));
    quote(out, &written);
    drop(line);
}

// Adds a line by its kind and its texts.
fn put_line(out: &Answer, line: &Line) {
    match line {
        Line::Start(name) => put_quoted(out, "start ", name.as_str()),
        Line::Attr { name, value } => {
            put_quoted(out, "attribute ", name.as_str());
            put_quoted(out, " ", value.as_str());
        }
        Line::Chars(text) => put_quoted(out, "text ", text.as_str()),
        Line::End(name) => put_quoted(out, "end ", name.as_str()),
        Line::Pi { target, value } => {
            put_quoted(out, "instruction ", target.as_str());
            put_quoted(out, " ", value.as_str());
        }
        Line::Comment(text) => put_quoted(out, "comment ", text.as_str()),
    }
}

/// Adds whether some bytes are UTF-8 as a whole, and their lines as they are in them, up to the
/// first with a fault.
pub(crate) fn put_views(out: &Answer, bytes: &[u8]) {
    let mut rest = Rest::of(bytes);
    out.put_whole(rest.bytes().len() as u64);
    out.put(match rest {
        Rest::Text(_) => " bytes as text",
        Rest::Bytes(_) => " bytes as bytes",
    });
    for _ in 0..bytes.len() {
        match rest.view_line() {
            Ok(Some((view, taken))) => {
                put_view(out, view);
                out.put_count(", ", taken as u64);
                out.put(" bytes");
                rest = rest.behind(taken);
            }
            Ok(None) => return,
            Err(fault) => return out.put_count(" | fault ", fault.number() as u64),
        }
    }
}

// Adds a line as it is in its bytes.
fn put_view(out: &Answer, view: LineView<'_>)
    requires { IsReadable view }
{
    out.put(" | ");
    match view {
        LineView::Start(name) => put_quoted(out, "start ", name),
        LineView::Attr { name, value } => {
            put_quoted(out, "attribute ", name);
            put_data(out, value);
        }
        LineView::Chars(text) => {
            out.put("text");
            put_data(out, text);
        }
        LineView::End(name) => put_quoted(out, "end ", name),
        LineView::Pi { target, value } => {
            put_quoted(out, "instruction ", target);
            put_data(out, value);
        }
        LineView::Comment(text) => {
            out.put("comment");
            put_data(out, text);
        }
    }
}

// Adds data by its form and the text that it shows.
fn put_data(out: &Answer, value: Data<'_>)
    requires { IsReadableData value }
{
    out.put(match value {
        Data::Plain(_) => " plain ",
        Data::Escaped(_) => " escaped ",
    });
    let mut text = Vec::new(out.alloc);
    out.note(value.append_to(&mut text));
    quote(out, &text);
}
