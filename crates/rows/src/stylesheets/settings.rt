//! The settings of a row file.

use crate::answer::{Answer, text_of};
use crate::fields::cut;
use crate::lookups::value_named;
use crate::repeats::put_repeated;
use std::alloc::Global;

/// How often names are replaced in a text: in its form, in its fields, and in what these represent.
const ROUNDS: u32 = 3;

/// What rows are.
pub(crate) enum RowKind {
    /// Declarations of attribute sets, and the first circle of them.
    Circles,
    /// A document, and what its elements and texts are.
    Elements,
    /// A document, and what may be in its document element.
    Contents,
    /// A document, and what its attributes have to be.
    Values,
    /// A document, and the first words of its attributes.
    Words,
    /// The modules of a stylesheet.
    Modules,
    /// A stylesheet, and its first static fault.
    Faults,
    /// A stylesheet, and its declarations.
    Sheets,
    /// A stylesheet, and the bodies of its templates.
    Bodies,
    /// A stylesheet, and the rules that the nodes of a document take.
    Rules,
    /// The same of the rules that were imported into the module of a template.
    ImportedRules,
    /// A stylesheet, and how many nodes of a document take one of its templates.
    Counts,
    /// A stylesheet, and the white space of a document that it strips.
    WhiteSpace,
}

/// The names of the kinds.
const KINDS: &[(&str, RowKind)] = &[
    ("circles", RowKind::Circles),
    ("elements", RowKind::Elements),
    ("contents", RowKind::Contents),
    ("values", RowKind::Values),
    ("words", RowKind::Words),
    ("modules", RowKind::Modules),
    ("faults", RowKind::Faults),
    ("sheets", RowKind::Sheets),
    ("bodies", RowKind::Bodies),
    ("rules", RowKind::Rules),
    ("imported rules", RowKind::ImportedRules),
    ("counts", RowKind::Counts),
    ("white space", RowKind::WhiteSpace),
];

/// What a setting sets.
enum Setting {
    Rows,
    Form,
    Document,
    Repeat,
}

/// The names of the settings.
const SETTINGS: &[(&str, Setting)] = &[
    ("rows", Setting::Rows),
    ("form", Setting::Form),
    ("document", Setting::Document),
    ("repeat", Setting::Repeat),
];

/// The settings that hold for the rows after them.
#[derive(Drop)]
pub(crate) struct Settings<'t> {
    /// What the rows are.
    pub(crate) kind: Option<&'static RowKind>,
    /// The document, in its compact form.
    pub(crate) document: &'t str,
    /// The form into which a row's fields are put; empty where a row is taken as it is.
    form: &'t str,
    /// Names, each with a number, and a text that is repeated so many times for it.
    repeats: Vec<(&'t str, &'t str)>,
}

impl<'t> Settings<'t> {
    /// No settings.
    pub(crate) fn new(alloc: Global) -> Settings<'t> {
        Settings {
            kind: None,
            document: "",
            form: "",
            repeats: Vec::new(alloc),
        }
    }

    /// Takes a setting: its word and its text, with a space between them.
    pub(crate) fn set(&mut self, out: &Answer, setting: &'t str) {
        let (word, text) = cut(setting, " ");
        match value_named(SETTINGS, word) {
            Some(Setting::Rows) => {
                self.kind = value_named(KINDS, text);
                self.form = "";
            }
            Some(Setting::Form) => self.form = text,
            Some(Setting::Document) => self.document = text,
            Some(Setting::Repeat) => out.take(&mut self.repeats, Ok(cut(text, " "))),
            None => self.kind = None,
        }
    }

    /// Adds the text for which a name stands: the field of an input for a number.
    fn put_named(&self, out: &Answer, name: &str, input: &str) {
        if let Ok(number) = name.parse::<usize>() {
            let field = input.split(" | ").nth(number.saturating_sub(1));
            out.put(field.unwrap_or(""));
        }
        for (known, repeat) in &self.repeats {
            if *known == name {
                put_repeated(out, repeat);
            }
        }
    }

    /// A text with what the names in it, each between two percent signs, represent.
    fn replaced(&self, out: &Answer, text: &str, input: &str) -> Vec<u8> {
        let next = Answer::new(out.alloc);
        let mut is_name = false;
        for part in text.split('%') {
            if is_name {
                self.put_named(&next, part, input);
            } else {
                next.put(part);
            }
            is_name = !is_name;
        }
        next.into_bytes(out)
    }

    /// A text without names.
    pub(crate) fn expanded(&self, out: &Answer, text: &str, input: &str) -> Vec<u8> {
        let mut bytes = self.replaced(out, text, input);
        for _ in 1..ROUNDS {
            bytes = self.replaced(out, text_of(&bytes), input);
        }
        bytes
    }

    /// The whole input of a row.
    pub(crate) fn input(&self, out: &Answer, input: &str) -> Vec<u8> {
        let form = if self.form.is_empty() {
            input
        } else {
            self.form
        };
        self.expanded(out, form, input)
    }
}
