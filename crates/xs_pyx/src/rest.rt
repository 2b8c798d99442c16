//! What is left of a document's bytes.

ghost use Rattle.std.specs.Prelude.{◌≡◌, ◌<◌, ◌∷◌, IfOk, IfSome, drop, length};
ghost use Rattle.xs_pyx.specs.Row.{behind_row, first_row, rows_of};
ghost use Rattle.xs_pyx.specs.Results.{Finds, Reads};
ghost use Rattle.xs_pyx.specs.Views.{CanCut, HasReadable, bytes_left, reported};

use crate::fault::Fault;
use crate::read::{view_line, view_text_line};
use crate::view::LineView;
use std::str::from_utf8;

/// What is left of a document. Bytes that are UTF-8 as a whole are found to be so once, not line
/// by line.
#[derive(Clone, Copy, Debug)]
pub enum Rest<'a> {
    /// It is UTF-8.
    Text(&'a str),
    /// It may be UTF-8 or not.
    Bytes(&'a [u8]),
}

impl<'a> Rest<'a> {
    /// All bytes of a document.
    pub fn of(bytes: &'a [u8]) -> Rest<'a>
        ensures { bytes_left result ≡ bytes.now }
    {
        match from_utf8(bytes) {
            Ok(text) => Rest::Text(text),
            Err(_) => Rest::Bytes(bytes),
        }
    }

    /// The bytes that are left.
    pub fn bytes(self) -> &'a [u8]
        ensures { result.now ≡ bytes_left self.entry }
    {
        match self {
            Rest::Text(text) => text.as_bytes(),
            Rest::Bytes(bytes) => bytes,
        }
    }

    /// The first line as it stands in the bytes, and how many of them it takes, as `view_line`
    /// answers it for these. No memory.
    pub fn view_line(self) -> Result<Option<(LineView<'a>, usize)>, Fault>
        ensures first { Reads (reported result) (bytes_left self.entry) }
        ensures lines { Finds (reported result) (bytes_left self.entry) }
        ensures readable { HasReadable result }
        ensures rows { 0 < length (bytes_left self.entry) → rows_of (bytes_left self.entry)
            ≡ first_row (bytes_left self.entry) ∷ rows_of (behind_row (bytes_left self.entry)) }
        ensures cut { IfOk result (λ found. IfSome found (λ found. CanCut self.entry found.1)) }
    {
        match self {
            Rest::Text(text) => view_text_line(text),
            Rest::Bytes(bytes) => view_line(bytes),
        }
    }

    /// What stands behind the first line, which takes so many bytes.
    pub fn behind(self, taken: usize) -> Rest<'a>
        requires { CanCut self taken }
        ensures { bytes_left result ≡ drop taken (bytes_left self.entry) }
    {
        match self {
            Rest::Text(text) => Rest::Text(&text[taken..]),
            Rest::Bytes(bytes) => Rest::Bytes(&bytes[taken..]),
        }
    }
}
