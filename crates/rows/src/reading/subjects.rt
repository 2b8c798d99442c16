//! What the rows of one line ask.

use crate::answer::Answer;
use crate::reading::notation::put_decoded;
use crate::reading::{documents, lines, texts};
use std::str::from_utf8;

/// What rows are about.
pub(crate) enum Subject {
    /// The first faults of documents.
    Documents,
    /// Where characters may be in a name.
    NameCharacters,
    /// Which characters are white space.
    WhiteSpace,
    /// The first line of some bytes.
    Lines,
    /// All lines of some bytes, as they are in them.
    Views,
    /// Texts as PYX data.
    Escapes,
    /// PYX data as texts.
    Data,
    /// Qualified names.
    Names,
    /// Whether texts are white space.
    BlankTexts,
}

/// The names of the subjects.
pub(crate) const SUBJECTS: &[(&str, Subject)] = &[
    ("documents", Subject::Documents),
    ("name characters", Subject::NameCharacters),
    ("white space", Subject::WhiteSpace),
    ("lines", Subject::Lines),
    ("views", Subject::Views),
    ("escapes", Subject::Escapes),
    ("data", Subject::Data),
    ("names", Subject::Names),
    ("blank texts", Subject::BlankTexts),
];

/// Adds the answer to an input, by the subject of its rows. A document begins with `start`.
pub(crate) fn put_answer(out: &Answer, subject: &Subject, start: &Answer, input: &str) {
    match subject {
        Subject::Documents => documents::put_fault_of(out, start, input),
        Subject::NameCharacters | Subject::WhiteSpace => {
            texts::put_characters(out, subject, input)
        }
        _ => put_decoded_answer(out, subject, input),
    }
}

// Adds the answer to an input that represents bytes.
fn put_decoded_answer(out: &Answer, subject: &Subject, input: &str) {
    let decoded = Answer::new(out.alloc);
    put_decoded(&decoded, input);
    let bytes = decoded.into_bytes(out);
    match subject {
        Subject::Lines => lines::put_first(out, &bytes),
        Subject::Views => lines::put_views(out, &bytes),
        _ => put_answer_to_text(out, subject, &bytes),
    }
}

// Adds the answer to a text.
fn put_answer_to_text(out: &Answer, subject: &Subject, bytes: &[u8]) {
    let Ok(text) = from_utf8(bytes) else {
        return out.put("not UTF-8");
    };
    match subject {
        Subject::Escapes => texts::put_escapes(out, text),
        Subject::Data => texts::put_data(out, text),
        Subject::Names => texts::put_name(out, text),
        _ => texts::put_blank(out, text),
    }
}
