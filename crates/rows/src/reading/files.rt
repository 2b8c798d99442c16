//! Row files, line by line.

use crate::answer::Answer;
use crate::fields::{cut, is_comment, put_input};
use crate::lookups::value_named;
use crate::reading::documents::{Row, put_start};
use crate::reading::subjects::{SUBJECTS, Subject, put_answer};

/// What a line that is no setting is part of.
#[derive(Clone, Copy)]
enum Part {
    /// The rows of one line.
    Lines,
    /// The document of a row.
    Document,
    /// The nodes of a row.
    Nodes,
    /// The nodes of a row that are added after stripping.
    LaterNodes,
    /// The answer in the file, which is thrown away.
    Answer,
}

/// What a setting, or the word that begins a row or a part of its input, says.
enum Word {
    Subject,
    Start,
    Row,
    Document,
    Nodes,
    Then,
    Marks,
}

/// The words of these.
const WORDS: &[(&str, Word)] = &[
    ("subject", Word::Subject),
    ("start", Word::Start),
    ("row", Word::Row),
    ("document", Word::Document),
    ("nodes", Word::Nodes),
    ("then", Word::Then),
    ("marks", Word::Marks),
];

/// A row file that is being written again.
#[derive(Drop)]
struct RowFile<'t> {
    subject: Option<&'static Subject>,
    start: Answer,
    part: Part,
    row: Row<'t>,
}

/// Adds a row file with each of its answers computed anew.
pub(crate) fn put_rows(out: &Answer, text: &str) {
    let mut file = RowFile {
        subject: None,
        start: Answer::new(out.alloc),
        part: Part::Lines,
        row: Row::new(out.alloc),
    };
    for line in text.lines() {
        file.take(out, line);
    }
    file.end_row(out);
    drop(file);
}

impl<'t> RowFile<'t> {
    // Takes a line.
    fn take(&mut self, out: &Answer, line: &'t str) {
        if is_comment(line) {
            self.end_row(out);
            out.put_line(line);
        } else if let Some(setting) = line.strip_prefix("= ") {
            let (word, value) = cut(setting, " ");
            if self.set(out, word, value) {
                out.put_line(line);
            } else {
                self.put_answer(out);
            }
        } else {
            self.take_line(out, line);
        }
    }

    // Takes a setting, or the word that begins a row or a part of its input, and says whether it is
    // one of these.
    fn set(&mut self, out: &Answer, word: &str, value: &'t str) -> bool {
        let Some(word) = value_named(WORDS, word) else {
            return false;
        };
        match word {
            Word::Subject => self.subject = value_named(SUBJECTS, value),
            Word::Start => put_start(&self.start, value),
            Word::Row => self.end_row(out),
            Word::Document => self.part = Part::Document,
            Word::Nodes => self.part = Part::Nodes,
            Word::Then => self.part = Part::LaterNodes,
            Word::Marks => self.row.marks = value,
        }
        true
    }

    // Takes a line of a part, or a row of one line.
    fn take_line(&self, out: &Answer, line: &str) {
        match self.part {
            Part::Lines => return self.put_row(out, line),
            Part::Document => self.row.put_line(line),
            Part::Nodes => self.row.nodes.put_line(line),
            Part::LaterNodes => self.row.later_nodes.put_line(line),
            Part::Answer => return,
        }
        out.put_line(line);
    }

    // Adds a row of one line with its answer.
    fn put_row(&self, out: &Answer, line: &str) {
        let input = put_input(out, line);
        match self.subject {
            Some(subject) => put_answer(out, subject, &self.start, input),
            None => out.put("unknown subject"),
        }
        out.put_byte(b'\n');
    }

    // Adds the answer of a row of several lines, if it has none yet.
    fn put_answer(&mut self, out: &Answer) {
        match self.part {
            Part::Lines => out.put("unknown setting\n"),
            Part::Document => self.row.put_document(out),
            Part::Nodes | Part::LaterNodes => self.row.put_nodes(out),
            Part::Answer => return,
        }
        self.part = Part::Answer;
    }

    // Ends a row of several lines, where there is one.
    fn end_row(&mut self, out: &Answer) {
        if !matches!(self.part, Part::Lines) {
            self.put_answer(out);
        }
        self.part = Part::Lines;
        self.row.clear();
    }
}
