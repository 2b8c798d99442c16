//! The words of rows on runs: parts, and what is called.

use crate::runs::events::Form;

/// Which file a row gives.
pub(crate) enum FileKind {
    /// The content of the stylesheet.
    Sheet,
    /// That of another stylesheet.
    Module,
    /// The source.
    Source,
    /// Any file.
    Other,
}

/// What a line that begins a part says.
pub(crate) enum Part {
    /// A row begins.
    Row,
    /// The arguments of a run.
    Arguments,
    /// The budget of a run.
    Budget,
    /// A file.
    File(FileKind),
    /// The options with which each run is made.
    With,
    /// What is called for a row in one line.
    Call,
    /// How many bytes a sink takes at once.
    Most,
    /// A fetch or a write that fails.
    Failing,
    /// Two workers have to meet.
    Gate,
    /// A part of an answer.
    Answer,
}

/// The words that begin a part.
pub(crate) const PARTS: &[(&str, Part)] = &[
    ("row", Part::Row),
    ("args", Part::Arguments),
    ("budget", Part::Budget),
    ("sheet", Part::File(FileKind::Sheet)),
    ("module", Part::File(FileKind::Module)),
    ("source", Part::File(FileKind::Source)),
    ("file", Part::File(FileKind::Other)),
    ("with", Part::With),
    ("call", Part::Call),
    ("most", Part::Most),
    ("failing", Part::Failing),
    ("gate", Part::Gate),
    ("status", Part::Answer),
    ("ticks", Part::Answer),
    ("pieces", Part::Answer),
    ("text", Part::Answer),
    ("result", Part::Answer),
    ("lines", Part::Answer),
    ("met", Part::Answer),
    ("differs", Part::Answer),
];

/// What is called for a row in one line.
pub(crate) enum Call {
    /// Arguments are read.
    ReadWords,
    /// Events are put.
    Build,
    /// Events are written.
    Write(Form),
    /// A stylesheet is compiled once, and run on the sources of the row.
    RunReply,
    /// A run, with the arguments of the row.
    Arguments,
    /// A run, with the budget of the row.
    Budget,
    /// A run, with the text of the row in its files.
    Text,
}

/// The names of the calls.
pub(crate) const CALLS: &[(&str, Call)] = &[
    ("read_words", Call::ReadWords),
    ("build", Call::Build),
    ("write_text", Call::Write(Form::Text)),
    ("write_pyx", Call::Write(Form::Pyx)),
    ("take", Call::Write(Form::Stream)),
    ("run_reply", Call::RunReply),
    ("transform args", Call::Arguments),
    ("transform budget", Call::Budget),
    ("transform text", Call::Text),
];
