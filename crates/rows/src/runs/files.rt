//! The rows of a file, one line after another.

use crate::answer::Answer;
use crate::fields::{cut, is_comment, put_input};
use crate::lookups::value_named;
use crate::runs::answers::{put_fields, put_parts, put_pieces};
use crate::runs::calls::put_options;
use crate::runs::events::{put_fragment, put_written};
use crate::runs::parts::{CALLS, Call, FileKind, PARTS, Part};
use crate::runs::replies::put_replies;
use crate::runs::setup::Setup;
use crate::texts::{decoded, push_words, word_of};
use std::thread::Threads;

/// The arguments of a run that says none.
const PLAIN: &str = "s.pyx src.pyx";

/// Where a line stands.
#[derive(Clone, Copy)]
enum At {
    /// Outside of the rows of several lines.
    Outside,
    /// In the input of a row that says no arguments.
    Input,
    /// After a line with the arguments of a run.
    Arguments,
    /// In an answer.
    Answer,
}

/// What the lines before say of those after them.
#[derive(Drop)]
struct Rows<'t> {
    setup: Setup<'t>,
    at: At,
    in_file: bool,
    /// The arguments of the next run, and its budget before them.
    words: &'t str,
    budget: &'t str,
    /// The options with which each run is made, between bars.
    with: &'t str,
    /// What is called for a row in one line.
    call: Option<&'static Call>,
}

/// Adds a row file with each answer computed.
pub(crate) fn put_rows<R: Threads + Sync>(out: &Answer, rt: &R, file: &str) {
    let mut rows = Rows {
        setup: Setup::new(out.alloc),
        at: At::Outside,
        in_file: false,
        words: "",
        budget: "",
        with: "",
        call: None,
    };
    for line in file.lines() {
        rows.take_line(out, rt, line);
    }
    rows.end_row(out, rt);
    drop(rows);
}

impl<'t> Rows<'t> {
    /// Takes a line.
    fn take_line<R: Threads + Sync>(&mut self, out: &Answer, rt: &R, line: &'t str) {
        if is_comment(line) {
            self.end_row(out, rt);
            self.in_file = false;
            out.put_line(line);
        } else if let Some(part) = line.strip_prefix("= ") {
            self.in_file = false;
            self.take_part(out, rt, line, part);
        } else if self.in_file {
            self.setup.put_line(line);
            out.put_line(line);
        } else if !matches!(self.at, At::Answer) {
            let input = put_input(out, line);
            self.put_called(out, rt, input);
            out.put_byte(b'\n');
        }
    }

    /// Takes the line that begins a part.
    fn take_part<R: Threads + Sync>(&mut self, out: &Answer, rt: &R, line: &str, part: &'t str) {
        let (word, rest) = cut(part, " ");
        match value_named(PARTS, word) {
            Some(Part::Answer) => return self.answer(out, rt),
            Some(Part::File(kind)) => self.take_file(out, kind, rest),
            Some(part) => self.take_input(out, rt, part, rest),
            None => out.put("= no part has this word:\n"),
        }
        out.put_line(line);
    }

    /// Takes a part that is neither an answer nor a file.
    fn take_input<R: Threads + Sync>(&mut self, out: &Answer, rt: &R, part: &Part, rest: &'t str) {
        match part {
            Part::Row => {
                self.end_row(out, rt);
                self.take_arguments("", PLAIN);
                self.at = At::Input;
            }
            Part::Arguments => self.take_run(out, rt, "", rest),
            Part::Budget => self.take_run(out, rt, rest, PLAIN),
            Part::With => self.with = rest,
            Part::Call => self.call = value_named(CALLS, rest),
            Part::Most => self.setup.set_most(rest),
            Part::Gate => self.setup.set_meeting(),
            _ => self.setup.add_failing(out, rest),
        }
    }

    /// Takes the arguments of another run, and the budget before them, if there is one.
    fn take_run<R: Threads + Sync>(
        &mut self,
        out: &Answer,
        rt: &R,
        budget: &'t str,
        words: &'t str,
    ) {
        if let At::Arguments = self.at {
            self.answer(out, rt);
        }
        self.take_arguments(budget, words);
    }

    /// Takes the arguments of a run, and the budget before them, if there is one.
    fn take_arguments(&mut self, budget: &'t str, words: &'t str) {
        self.budget = budget;
        self.words = words;
        self.at = At::Arguments;
    }

    /// Begins a file: of the row, or outside of a row one of all rows that follow.
    fn take_file(&mut self, out: &Answer, kind: &FileKind, rest: &'t str) {
        if let At::Answer = self.at {
            self.at = At::Outside;
            self.setup.clear();
        }
        let is_shared = matches!(self.at, At::Outside);
        self.in_file = self.setup.add_file(out, kind, rest, is_shared);
    }

    /// Ends a row; a run that has no answer yet gets one.
    fn end_row<R: Threads + Sync>(&mut self, out: &Answer, rt: &R) {
        self.answer(out, rt);
        self.setup.clear();
        self.at = At::Outside;
    }

    /// Adds the answer of the run that has none yet: what it gives with the first of the options,
    /// and with each that gives something else.
    fn answer<R: Threads + Sync>(&mut self, out: &Answer, rt: &R) {
        if let At::Outside | At::Answer = self.at {
            return;
        }
        self.at = At::Answer;
        let (options, others) = cut(self.with, " | ");
        let first = Answer::new(out.alloc);
        self.put_run(&first, rt, options);
        let first = first.into_bytes(out);
        out.put_bytes(&first);
        if !others.is_empty() {
            for options in others.split(" | ") {
                self.put_other(out, rt, &first, options);
            }
        }
    }

    /// Adds what a run gives with these options, where it is something else than the first.
    fn put_other<R: Threads + Sync>(&self, out: &Answer, rt: &R, first: &[u8], options: &str) {
        let parts = Answer::new(out.alloc);
        self.put_run(&parts, rt, options);
        let parts = parts.into_bytes(out);
        if parts.as_slice() != first {
            out.put("= differs ");
            out.put_line(options);
            out.put_bytes(&parts);
        }
    }

    /// Adds what a run gives with these options.
    fn put_run<R: Threads + Sync>(&self, out: &Answer, rt: &R, options: &str) {
        let mut words = Vec::new(out.alloc);
        push_words(out, &mut words, options);
        if !self.budget.is_empty() {
            push_words(out, &mut words, "--budget");
            push_words(out, &mut words, self.budget);
        }
        push_words(out, &mut words, self.words);
        let outcome = self.setup.run(out, rt, &words, b"");
        put_parts(out, &outcome);
        out.put_if(outcome.is_met, "= met\n");
        if !self.with.contains("--grain") {
            put_pieces(out, &outcome.report);
        }
        drop(outcome);
    }

    /// Adds the answer of a row in one line.
    fn put_called<R: Threads + Sync>(&self, out: &Answer, rt: &R, input: &str) {
        match self.call {
            Some(Call::ReadWords) => put_options(out, input),
            Some(Call::Build) => put_fragment(out, input),
            Some(Call::Write(form)) => put_written(out, form, input),
            Some(Call::RunReply) => self.put_replies(out, rt, input),
            Some(_) => self.put_transformed(out, rt, input),
            None => out.put("no such call"),
        }
    }

    /// Adds the answers of the stylesheet, compiled once, on sources whose names are the input.
    fn put_replies<R: Threads + Sync>(&self, out: &Answer, rt: &R, input: &str) {
        let mut library = self.setup.library(out, b"");
        put_replies(out, rt, &mut library, input);
        drop(library);
    }

    /// Adds the answer of a run in one line, of which the row says the arguments, the budget, or a
    /// text of the files.
    fn put_transformed<R: Threads + Sync>(&self, out: &Answer, rt: &R, input: &str) {
        let text = decoded(out.alloc, input);
        let words = self.words_of(out, input);
        let text = text.into_bytes(out);
        let outcome = self.setup.run(out, rt, &words, &text);
        put_fields(out, &outcome);
        drop(outcome);
    }

    /// The arguments of a run that a row in one line says.
    fn words_of(&self, out: &Answer, input: &str) -> Vec<String> {
        let mut words = Vec::new(out.alloc);
        if let Some(Call::Arguments) = self.call {
            push_words(out, &mut words, input);
            return words;
        }
        if let Some(Call::Budget) = self.call {
            push_words(out, &mut words, "--budget");
            out.take(&mut words, word_of(out.alloc, input));
        }
        push_words(out, &mut words, PLAIN);
        words
    }
}
