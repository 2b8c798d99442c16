//! Lists of events in one line, what stays of them, and how it is written.

use crate::answer::{Answer, text_of};
use crate::fields::cut_prefix;
use std::alloc::{AllocError, Global};
use xs_result::{build, write_text};
use xs_result_lines::{PyxStream, write_pyx};
use xs_text::{Characters, TextBuf};
use xs_trace::event::{Event, Fragment, Label};

/// The name with this URI, prefix and local part.
pub(crate) fn label_of(
    alloc: Global,
    uri: &str,
    prefix: &str,
    local: &str,
) -> Result<Label, AllocError> {
    let uri = TextBuf::of(alloc, uri)?;
    let local = TextBuf::of(alloc, local)?;
    let prefix = TextBuf::of(alloc, prefix)?;
    Label::of(alloc, uri, local, prefix)
}

/// The name `{URI}prefix:local`; the URI in braces, and the prefix with its colon, may be left out.
fn label(alloc: Global, name: &str) -> Result<Label, AllocError> {
    let (uri, rest) = cut_prefix(name, "}");
    let (prefix, local) = cut_prefix(rest, ":");
    label_of(alloc, uri.strip_prefix('{').unwrap_or(""), prefix, local)
}

/// The event that a line says, in the letters of PYX lines; `:` begins a namespace node.
fn event(alloc: Global, line: &str) -> Result<Event, AllocError> {
    if let Some(name) = line.strip_prefix('(') {
        return Ok(Event::Start(label(alloc, name)?));
    }
    if let Some(text) = line.strip_prefix('-') {
        return Ok(Event::Chars(Characters::of(alloc, text)?));
    }
    if let Some(text) = line.strip_prefix('C') {
        return Ok(Event::Comment(TextBuf::of(alloc, text)?));
    }
    match line.split_once(' ') {
        Some((name, value)) => named_event(alloc, name, value),
        None => Ok(Event::End),
    }
}

/// The event of a line with a name and a value.
fn named_event(alloc: Global, name: &str, value: &str) -> Result<Event, AllocError> {
    let value = TextBuf::of(alloc, value)?;
    if let Some(name) = name.strip_prefix('A') {
        let name = label(alloc, name)?;
        return Ok(Event::Attr { name, value });
    }
    if let Some(prefix) = name.strip_prefix(':') {
        let prefix = TextBuf::of(alloc, prefix)?;
        return Ok(Event::Space { prefix, uri: value });
    }
    let target = TextBuf::of(alloc, name.strip_prefix('?').unwrap_or(""))?;
    Ok(Event::Pi { target, value })
}

/// Adds the line that says an event.
fn put_event(out: &Answer, event: &Event) {
    match event {
        Event::Start(name) => put_named(out, b'(', name),
        Event::Attr { name, value } => {
            put_named(out, b'A', name);
            out.put_signed(b' ', value.as_str());
        }
        Event::Space { prefix, uri } => {
            out.put_signed(b':', prefix.as_str());
            out.put_signed(b' ', uri.as_str());
        }
        Event::Chars(text) => out.put_signed(b'-', text.as_str()),
        Event::End => out.put_byte(b')'),
        Event::Comment(text) => out.put_signed(b'C', text.as_str()),
        Event::Pi { target, value } => {
            out.put_signed(b'?', target.as_str());
            out.put_signed(b' ', value.as_str());
        }
    }
}

/// Adds a sign and a name.
fn put_named(out: &Answer, sign: u8, name: &Label) {
    out.put_byte(sign);
    out.put_label(name);
}

/// The events that lines say, which have slashes between them.
pub(crate) fn events(out: &Answer, lines: &str) -> Vec<Event> {
    let mut all = Vec::new(out.alloc);
    for line in lines.split('/') {
        if !line.is_empty() {
            out.take(&mut all, event(out.alloc, line));
        }
    }
    all
}

/// Adds what stays of events.
pub(crate) fn put_fragment(out: &Answer, lines: &str) {
    let put = events(out, lines);
    match fragment(out.alloc, &put) {
        Ok(fragment) => put_events(out, fragment.events()),
        Err(_) => out.refuse(),
    }
}

/// A copy of what stays of events.
fn fragment(alloc: Global, put: &[Event]) -> Result<Fragment, AllocError> {
    build(alloc, put.iter())?.copy()
}

/// Adds the lines that say events, with slashes between them.
fn put_events(out: &Answer, events: &[Event]) {
    out.put_if(events.is_empty(), "nothing");
    let mut before = "";
    for event in events {
        out.put(before);
        put_event(out, event);
        before = "/";
    }
}

/// How events are written.
pub(crate) enum Form {
    /// As their text, after another one.
    Text,
    /// As their lines, at once.
    Pyx,
    /// As their lines, as the events come.
    Stream,
}

/// Adds what is written of events.
pub(crate) fn put_written(out: &Answer, form: &Form, lines: &str) {
    let put = events(out, lines);
    let written = match form {
        Form::Text => text(out.alloc, &put),
        Form::Pyx => pyx(out.alloc, &put),
        Form::Stream => streamed(out, &put),
    };
    match written {
        Ok(written) => out.put_escaped(text_of(&written)),
        Err(_) => out.refuse(),
    }
}

/// The text of events, which is put after another text.
fn text(alloc: Global, put: &[Event]) -> Result<Vec<u8>, AllocError> {
    let mut text = Vec::from_slice(alloc, b"> ")?;
    write_text(&mut text, put.iter())?;
    Ok(text)
}

/// The lines of events.
fn pyx(alloc: Global, put: &[Event]) -> Result<Vec<u8>, AllocError> {
    let mut lines = Vec::new(alloc);
    write_pyx(&mut lines, put.iter())?;
    Ok(lines)
}

/// The lines of events that come one by one; adds how many bytes of them there are after each.
fn streamed(out: &Answer, put: &[Event]) -> Result<Vec<u8>, AllocError> {
    let mut lines = Vec::new(out.alloc);
    let mut stream = PyxStream::new(out.alloc)?;
    for event in put {
        stream.add(&mut lines, event)?;
        out.put_whole(lines.len() as u64);
        out.put_byte(b' ');
    }
    stream.finish(&mut lines)?;
    Ok(lines)
}
