//! What a run is made of: files, and what fails of them and of the sinks.

use crate::answer::{Answer, text_of};
use crate::fields::{cut, whole};
use crate::library::file_of;
use crate::runs::meeting::Meeting;
use crate::runs::parts::FileKind;
use crate::texts::put_decoded;
use std::alloc::Global;
use std::thread::Threads;
use xs_engine::{Report, transform};
use xs_outside::{Gate, MemLibrary, MemSink, OpenGate};

/// The first lines of a stylesheet.
const START: &str =
    "(xsl:stylesheet\nAxmlns:xsl http://www.w3.org/1999/XSL/Transform\nAversion 1.0\n";

/// Its last line.
const END: &str = ")xsl:stylesheet\n";

/// In a file, the place of the text of a row in one line.
const PLACE: &str = "@@";

/// The most bytes that a sink holds.
const ROOM: usize = 65536;

/// How the text of a file is written.
#[derive(Clone, Copy)]
enum Form {
    /// As it is.
    Whole,
    /// Without the last line of a stylesheet.
    Content,
    /// In one line.
    Escaped,
}

/// A file of the library.
#[derive(Drop)]
struct File<'t> {
    name: &'t str,
    text: Answer,
    form: Form,
}

/// What the runs of a row have in common.
#[derive(Drop)]
pub(crate) struct Setup<'t> {
    /// The files, of which the last of a name counts.
    files: Vec<File<'t>>,
    /// How many of them further rows have, too.
    shared: usize,
    /// What fails: `fetch`, or a write of the sink `result` or `lines`, and its number.
    failing: Vec<(&'t str, u64)>,
    most: usize,
    /// Whether two workers have to meet.
    has_meeting: bool,
}

/// What a run left.
#[derive(Drop)]
pub(crate) struct Outcome {
    pub(crate) report: Report,
    pub(crate) result: MemSink,
    pub(crate) lines: MemSink,
    /// Whether two workers had to meet, and did.
    pub(crate) is_met: bool,
}

impl<'t> Setup<'t> {
    /// No files, and nothing that fails.
    pub(crate) fn new(alloc: Global) -> Setup<'t> {
        Setup {
            files: Vec::new(alloc),
            shared: 0,
            failing: Vec::new(alloc),
            most: ROOM,
            has_meeting: false,
        }
    }

    /// Forgets what belonged to a row alone.
    pub(crate) fn clear(&mut self) {
        self.files.truncate(self.shared);
        self.failing.clear();
        self.most = ROOM;
        self.has_meeting = false;
    }

    /// Begins a file, by its kind and the rest of the line that begins its part: one of a row, or
    /// of all rows that follow. Whether its lines follow.
    pub(crate) fn add_file(
        &mut self,
        out: &Answer,
        kind: &FileKind,
        rest: &'t str,
        is_shared: bool,
    ) -> bool {
        let (name, line, form) = file_in(kind, rest);
        let text = Answer::new(out.alloc);
        text.put(line);
        text.put_if(matches!(form, Form::Content), START);
        if matches!(kind, FileKind::Sheet) && !rest.is_empty() {
            text.put("(xsl:output\nAmethod ");
            text.put_both(rest, "\n)xsl:output\n");
        }
        out.take(&mut self.files, Ok(File { name, text, form }));
        if is_shared {
            self.shared = self.files.len();
        }
        !matches!(form, Form::Escaped)
    }

    /// Adds a line to the last file.
    pub(crate) fn put_line(&mut self, line: &str) {
        if let Some(file) = self.files.last_mut() {
            file.text.put_line(line);
        }
    }

    /// Takes how many bytes a sink takes at once, at most.
    pub(crate) fn set_most(&mut self, rest: &str) {
        self.most = rest.parse().unwrap_or(ROOM);
    }

    /// Takes it that two workers have to meet.
    pub(crate) fn set_meeting(&mut self) {
        self.has_meeting = true;
    }

    /// Takes the number of a fetch, or of a write of a sink, that fails.
    pub(crate) fn add_failing(&mut self, out: &Answer, rest: &'t str) {
        let (what, number) = cut(rest, " ");
        out.take(&mut self.failing, Ok((what, whole(number) as u64)));
    }

    /// The numbers of the fetches, or of the writes of a sink, that fail.
    fn failures(&self, out: &Answer, wanted: &str) -> Vec<u64> {
        let mut numbers = Vec::new(out.alloc);
        for (what, number) in &self.failing {
            if *what == wanted {
                out.take(&mut numbers, Ok(*number));
            }
        }
        numbers
    }

    /// The library of the files, in which a text takes its place.
    pub(crate) fn library(&self, out: &Answer, text: &[u8]) -> MemLibrary {
        let mut files = Vec::new(out.alloc);
        for file in self.files.iter().rev() {
            let bytes = bytes_of(out, file, text);
            out.take(&mut files, file_of(out.alloc, file.name, bytes));
        }
        MemLibrary::new(out.alloc, files, self.failures(out, "fetch"))
    }

    /// An empty sink that fails the listed writes.
    fn sink(&self, out: &Answer, wanted: &str) -> MemSink {
        let failing = self.failures(out, wanted);
        let mut sink = MemSink::new(out.alloc, self.most.max(1), failing);
        out.note(sink.reserve(ROOM));
        sink
    }

    /// A run with these arguments, where a text takes its place in the files; where a file was
    /// refused memory, what is written of the run is refused.
    pub(crate) fn run<R: Threads + Sync>(
        &self,
        written: &Answer,
        rt: &R,
        words: &[String],
        text: &[u8],
    ) -> Outcome {
        if !self.has_meeting {
            return self.run_through(written, rt, words, text, &OpenGate);
        }
        let meeting = Meeting::new();
        let mut outcome = self.run_through(written, rt, words, text, &meeting);
        outcome.is_met = meeting.is_met();
        outcome
    }

    /// The same, through a gate.
    fn run_through<R: Threads + Sync, G: Gate>(
        &self,
        written: &Answer,
        rt: &R,
        words: &[String],
        text: &[u8],
        gate: &G,
    ) -> Outcome {
        let mut library = self.library(written, text);
        let mut result = self.sink(written, "result");
        let mut lines = self.sink(written, "lines");
        let report = transform(
            rt,
            written.alloc,
            words,
            &mut library,
            &mut result,
            &mut lines,
            gate,
        );
        drop(library);
        Outcome {
            report,
            result,
            lines,
            is_met: false,
        }
    }
}

/// The name of a file, its only line where it has one, and how its text is written.
fn file_in<'t>(kind: &FileKind, rest: &'t str) -> (&'t str, &'t str, Form) {
    let (name, line) = match kind {
        FileKind::Sheet => return ("s.pyx", "", Form::Content),
        FileKind::Module => return (rest, "", Form::Content),
        FileKind::Source => ("src.pyx", rest),
        FileKind::Other => cut(rest, " "),
    };
    let form = if line.is_empty() {
        Form::Whole
    } else {
        Form::Escaped
    };
    (name, line, form)
}

/// The bytes of a file, in which a text takes its place.
fn bytes_of(out: &Answer, file: &File<'_>, text: &[u8]) -> Vec<u8> {
    let bytes = Answer::new(out.alloc);
    let whole = file.text.copy(out);
    let whole = text_of(&whole);
    let (before, after) = cut(whole, PLACE);
    put_part(&bytes, file.form, before);
    if before.len() < whole.len() {
        bytes.put_bytes(text);
        put_part(&bytes, file.form, after);
    }
    bytes.put_if(matches!(file.form, Form::Content), END);
    bytes.into_bytes(out)
}

/// Adds the bytes of a part of a file.
fn put_part(out: &Answer, form: Form, part: &str) {
    if let Form::Escaped = form {
        put_decoded(out, part);
    } else {
        out.put(part);
    }
}
