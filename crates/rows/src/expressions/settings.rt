//! Settings, which hold for the rows after them.

use crate::answer::{Answer, text_of};
use crate::expressions::values::operand;
use crate::fields::{cut, cut_prefix, whole};
use crate::lookups::value_named;
use crate::runs::events::label_of;
use std::alloc::{AllocError, Global};
use std::mem::replace;
use xs_build::build_tree;
use xs_text::TextBuf;
use xs_trace::event::Label;
use xs_tree::Tree;
use xs_value::value::Value;
use xs_xpath::name::Slot;
use xs_xpath::scope::Scope;

// The most bytes of a document.
const MOST: u64 = 10_000_000;

/// What a setting sets.
enum Setting {
    Clear,
    Prefix,
    Prefixes,
    Local,
    Global,
    Position,
    Size,
    Current,
}

/// The names of the settings.
const SETTINGS: &[(&str, Setting)] = &[
    ("clear", Setting::Clear),
    ("prefix", Setting::Prefix),
    ("prefixes", Setting::Prefixes),
    ("local", Setting::Local),
    ("global", Setting::Global),
    ("position", Setting::Position),
    ("size", Setting::Size),
    ("current", Setting::Current),
];

/// What holds for a row.
#[derive(Drop)]
pub(crate) struct Settings {
    pub(crate) alloc: Global,
    /// The document.
    pub(crate) tree: Tree,
    /// The prefixes and their URIs.
    pub(crate) scope: Scope,
    /// The variables and their slots.
    pub(crate) slots: Vec<(Label, Slot)>,
    /// The values of the local variables.
    pub(crate) locals: Vec<Value>,
    /// The values of the global variables; one that has none yet is needed.
    pub(crate) globals: Vec<Option<Value>>,
    /// The context position.
    pub(crate) position: u32,
    /// The context size.
    pub(crate) size: u32,
    /// The place of the current node.
    pub(crate) current: u32,
}

impl Settings {
    /// An empty document, no prefixes and no variables.
    pub(crate) fn new(alloc: Global) -> Result<Settings, AllocError> {
        let tree = Tree::new(alloc)?;
        Ok(Settings {
            alloc,
            tree,
            scope: Scope::of(Vec::new(alloc)),
            slots: Vec::new(alloc),
            locals: Vec::new(alloc),
            globals: Vec::new(alloc),
            position: 1,
            size: 1,
            current: 0,
        })
    }

    /// Sets what a setting says, whose first word is its name.
    pub(crate) fn set(&mut self, out: &Answer, setting: &str) {
        let (name, rest) = cut(setting, " ");
        match value_named(SETTINGS, name) {
            Some(Setting::Clear) => self.clear(out),
            Some(Setting::Prefix) => self.add_prefixes(out, rest),
            Some(Setting::Prefixes) => {
                self.add_prefixes(out, text_of(&numbered_prefixes(out, rest)));
            }
            Some(Setting::Local) => self.add_local(out, rest),
            Some(Setting::Global) => self.add_global(out, rest),
            Some(Setting::Position) => self.position = whole(rest),
            Some(Setting::Size) => self.size = whole(rest),
            Some(Setting::Current) => self.current = whole(rest),
            None => out.put(" no such setting"),
        }
    }

    // Sets everything as it was at first.
    fn clear(&mut self, out: &Answer) {
        match Settings::new(self.alloc) {
            Ok(settings) => drop(replace(self, settings)),
            Err(_) => out.refuse(),
        }
    }

    /// Sets the document, by its lines.
    pub(crate) fn set_document(&mut self, out: &Answer, lines: &str) {
        match build_tree(self.alloc, lines.as_bytes(), MOST) {
            Ok(built) => drop(replace(&mut self.tree, built.tree)),
            Err(_) => out.put(" no document"),
        }
    }

    // Adds prefixes, each with its URI in a line.
    fn add_prefixes(&mut self, out: &Answer, lines: &str) {
        let scope = replace(&mut self.scope, Scope::of(Vec::new(self.alloc)));
        let mut pairs = scope.pairs;
        for line in lines.lines() {
            out.take(&mut pairs, prefix_of(self.alloc, line));
        }
        self.scope = Scope::of(pairs);
    }

    // Adds a local variable with its value.
    fn add_local(&mut self, out: &Answer, text: &str) {
        let (name, value) = cut(text, " ");
        let slot = Slot::Local(number_of(self.locals.len()));
        let variable = self.variable(name, slot);
        out.take(&mut self.slots, variable);
        out.take(&mut self.locals, operand(out, value));
    }

    // Adds a global variable, with its value where it has one.
    fn add_global(&mut self, out: &Answer, text: &str) {
        let (name, value) = cut(text, " ");
        let slot = Slot::Global(number_of(self.globals.len()));
        let variable = self.variable(name, slot);
        out.take(&mut self.slots, variable);
        out.take(&mut self.globals, operand_if(out, value));
    }

    // A variable with its slot.
    fn variable(&self, name: &str, slot: Slot) -> Result<(Label, Slot), AllocError> {
        let (prefix, local) = cut_prefix(name, ":");
        let name = label_of(self.alloc, self.uri_of(prefix), "", local)?;
        Ok((name, slot))
    }

    // The URI of the prefix of a variable, which is none where there is no prefix.
    fn uri_of(&self, prefix: &str) -> &str {
        if prefix.is_empty() {
            return "";
        }
        self.scope.uri_in(prefix).unwrap_or("")
    }
}

// The prefixes with the numbers from one to another, `p1000` for `u1000`, in lines.
fn numbered_prefixes(out: &Answer, numbers: &str) -> Vec<u8> {
    let (first, last) = cut(numbers, " ");
    let (first, last) = (whole(first), whole(last));
    let lines = Answer::new(out.alloc);
    for step in 0..=first.abs_diff(last) {
        let number = step_from(first, last, step);
        lines.put_count("p", number as u64);
        lines.put_count(" u", number as u64);
        lines.put_byte(b'\n');
    }
    lines.into_bytes(out)
}

// The number some steps from a first one towards a last one.
fn step_from(first: u32, last: u32, step: u32) -> u32 {
    if first <= last {
        first.saturating_add(step)
    } else {
        first.saturating_sub(step)
    }
}

// A prefix with its URI, which is a word before it.
fn prefix_of(alloc: Global, line: &str) -> Result<(TextBuf, TextBuf), AllocError> {
    let (prefix, uri) = cut(line, " ");
    let prefix = TextBuf::of(alloc, prefix)?;
    Ok((prefix, TextBuf::of(alloc, uri)?))
}

// The value that a row writes, if it writes one.
fn operand_if(out: &Answer, text: &str) -> Result<Option<Value>, AllocError> {
    if text.is_empty() {
        return Ok(None);
    }
    Ok(Some(operand(out, text)?))
}

// The number of a variable after so many.
fn number_of(count: usize) -> u32 {
    u32::try_from(count).unwrap_or(u32::MAX)
}
