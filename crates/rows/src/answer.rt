//! The text of an answer.

use std::alloc::{AllocError, Global};
use std::cell::{Cell, RefCell};
use xs_num::number::Num;
use xs_num::writing::write_num;
use xs_text::escape_into;
use xs_trace::event::Label;

/// A text that is written piece by piece. Once memory was refused there is no text.
#[derive(Drop)]
pub(crate) struct Answer {
    pub(crate) alloc: Global,
    bytes: RefCell<Vec<u8>>,
    is_refused: Cell<bool>,
}

impl Answer {
    /// An empty text.
    pub(crate) fn new(alloc: Global) -> Answer {
        Answer {
            alloc,
            bytes: RefCell::new(Vec::new(alloc)),
            is_refused: Cell::new(false),
        }
    }

    /// Takes note that memory was refused.
    pub(crate) fn refuse(&self) {
        self.is_refused.set(true);
    }

    /// Takes note of whether memory was refused.
    pub(crate) fn note(&self, outcome: Result<(), AllocError>) {
        if outcome.is_err() {
            self.refuse();
        }
    }

    /// Takes a value that was made into a list, or takes note that memory was refused.
    pub(crate) fn take<T: Drop>(&self, list: &mut Vec<T>, made: Result<T, AllocError>) {
        match made {
            Ok(value) => {
                if list.push(value).is_err() {
                    self.refuse();
                }
            }
            Err(_) => self.refuse(),
        }
    }

    /// Whether something holds, which it does not where memory was refused.
    pub(crate) fn holds(&self, made: Result<bool, AllocError>) -> bool {
        match made {
            Ok(holds) => holds,
            Err(_) => {
                self.refuse();
                false
            }
        }
    }

    /// Adds bytes.
    pub(crate) fn put_bytes(&self, bytes: &[u8]) {
        match self.bytes.try_borrow_mut() {
            Ok(mut held) => self.note(held.extend_from_slice(bytes)),
            Err(_) => self.refuse(),
        }
    }

    /// Adds a byte.
    pub(crate) fn put_byte(&self, byte: u8) {
        self.put_bytes(&[byte]);
    }

    /// Adds a text.
    pub(crate) fn put(&self, text: &str) {
        self.put_bytes(text.as_bytes());
    }

    /// Adds a text, where something holds.
    pub(crate) fn put_if(&self, holds: bool, text: &str) {
        if holds {
            self.put(text);
        }
    }

    /// Adds a text, unless nothing is there yet.
    pub(crate) fn put_between(&self, text: &str) {
        self.put_if(!self.is_empty(), text);
    }

    /// Adds a text and a byte.
    pub(crate) fn put_ended(&self, text: &str, end: u8) {
        self.put(text);
        self.put_byte(end);
    }

    /// Adds a text and a line end.
    pub(crate) fn put_line(&self, text: &str) {
        self.put_ended(text, b'\n');
    }

    /// Adds a sign and a text.
    pub(crate) fn put_signed(&self, sign: u8, text: &str) {
        self.put_byte(sign);
        self.put(text);
    }

    /// Adds a text between two signs.
    pub(crate) fn put_in(&self, open: u8, text: &str, close: u8) {
        self.put_signed(open, text);
        self.put_byte(close);
    }

    /// Adds a text in quotes.
    pub(crate) fn put_quoted(&self, text: &str) {
        self.put_in(b'\'', text, b'\'');
    }

    /// Adds a text so many times.
    pub(crate) fn put_times(&self, text: &str, times: usize) {
        for _ in 0..times {
            self.put(text);
        }
    }

    /// Adds two texts, one after the other.
    pub(crate) fn put_both(&self, first: &str, second: &str) {
        self.put(first);
        self.put(second);
    }

    /// Adds a text in one line, as PYX lines escape it.
    pub(crate) fn put_escaped(&self, text: &str) {
        let mut escaped = Vec::new(self.alloc);
        self.note(escape_into(&mut escaped, text));
        self.put_bytes(&escaped);
    }

    /// Adds a text that was made, or takes note that memory was refused.
    fn put_made(&self, made: Result<String, AllocError>) {
        match made {
            Ok(text) => self.put(text.as_str()),
            Err(_) => self.refuse(),
        }
    }

    /// Adds a whole number.
    pub(crate) fn put_whole(&self, number: u64) {
        let made = format!(in self.alloc; "{number}");
        self.put_made(made);
    }

    /// Adds a text, and a whole number after it.
    pub(crate) fn put_count(&self, text: &str, count: u64) {
        self.put(text);
        self.put_whole(count);
    }

    /// Adds a byte by its number.
    pub(crate) fn put_code(&self, byte: u8) {
        let made = format!(in self.alloc; "\\x{{{byte:x}}}");
        self.put_made(made);
    }

    /// Adds two numbers with a sign between them.
    pub(crate) fn put_pair(&self, first: u32, sign: u8, second: u32) {
        self.put_whole(first as u64);
        self.put_byte(sign);
        self.put_whole(second as u64);
    }

    /// Adds a name: `{URI}prefix:local`; an empty URI or prefix is left out.
    pub(crate) fn put_name(&self, uri: &str, prefix: &str, local: &str) {
        if !uri.is_empty() {
            self.put_in(b'{', uri, b'}');
        }
        if !prefix.is_empty() {
            self.put_ended(prefix, b':');
        }
        self.put(local);
    }

    /// Adds a name of a result or a stylesheet.
    pub(crate) fn put_label(&self, name: &Label) {
        self.put_name(name.uri(), name.prefix(), name.local());
    }

    /// Adds a number of XPath.
    pub(crate) fn put_number(&self, number: Num) {
        let mut text = Vec::new(self.alloc);
        self.note(write_num(&mut text, number));
        self.put_bytes(&text);
    }

    /// Adds whether something holds.
    pub(crate) fn put_bool(&self, holds: bool) {
        self.put(if holds { "true" } else { "false" });
    }

    /// Adds what another answer has in one line, `none` where it is empty.
    pub(crate) fn put_result(&self, other: Answer) {
        let bytes = other.into_bytes(self);
        let text = text_of(&bytes);
        self.put_escaped(if text.is_empty() { "none" } else { text });
    }

    /// Removes what is there.
    pub(crate) fn clear(&self) {
        match self.bytes.try_borrow_mut() {
            Ok(mut held) => held.clear(),
            Err(_) => self.refuse(),
        }
    }

    /// Whether nothing is there yet.
    fn is_empty(&self) -> bool {
        match self.bytes.try_borrow() {
            Ok(held) => held.is_empty(),
            Err(_) => false,
        }
    }

    /// A copy of the bytes so far, of which something else is written: it is refused where they
    /// were.
    pub(crate) fn copy(&self, out: &Answer) -> Vec<u8> {
        let copy = Answer::new(self.alloc);
        match self.bytes.try_borrow() {
            Ok(held) => copy.put_bytes(&held),
            Err(_) => out.refuse(),
        }
        copy.into_bytes(out)
    }

    /// The bytes, when no more come, likewise.
    pub(crate) fn into_bytes(self, out: &Answer) -> Vec<u8> {
        if self.is_refused.get() {
            out.refuse();
        }
        self.bytes.into_inner()
    }

    /// The bytes, when no more come.
    pub(crate) fn finish(self) -> Result<Vec<u8>, AllocError> {
        if self.is_refused.get() {
            return Err(AllocError);
        }
        Ok(self.bytes.into_inner())
    }
}

/// The text that some bytes are.
pub(crate) fn text_of(bytes: &[u8]) -> &str {
    str::from_utf8(bytes).unwrap_or("not UTF-8")
}
