//! One line as it stands in its bytes.

ghost use Rattle.std.specs.Prelude.{◌≡◌, ◌++◌, IfOk, IsSome, OnOk, OnErr};
ghost use Rattle.std.specs.Str.{IsUtf8};
ghost use Rattle.xs_text.specs.Escapes.{unescaped};
ghost use Rattle.xs_pyx.specs.Reading.{data_of};
ghost use Rattle.xs_pyx.specs.Views.{data_shown, line_shown, IsReadableData, IsReadable};

use crate::line::Line;
use std::alloc::{AllocError, Global};
use xs_text::{TextBuf, TextFault, unescape_into};

/// A value or a text as it is written.
#[derive(Clone, Copy, Debug)]
pub enum Data<'a> {
    /// It holds no backslash, and so it is its own data.
    Plain(&'a str),
    /// Each backslash of it begins a pair.
    Escaped(&'a str),
}

/// A line of a document that borrows its texts from the document's bytes.
#[derive(Clone, Copy, Debug)]
pub enum LineView<'a> {
    /// The start of an element of this name.
    Start(&'a str),
    /// An attribute of the element that just started.
    Attr { name: &'a str, value: Data<'a> },
    /// Text.
    Chars(Data<'a>),
    /// The end of an element of this name.
    End(&'a str),
    /// A processing instruction.
    Pi { target: &'a str, value: Data<'a> },
    /// A comment.
    Comment(Data<'a>),
}

impl<'a> Data<'a> {
    /// The data in memory of its own.
    pub fn to_text(self, alloc: Global) -> Result<TextBuf, AllocError>
        requires { IsReadableData self }
        ensures { IfOk result (λ text. text ≡ data_shown self.entry) }
    {
        match self {
            Data::Plain(text) => TextBuf::of(alloc, text),
            Data::Escaped(written) => escaped_text(alloc, written),
        }
    }

    /// Appends the data to `out`. After a refusal `out` is as it was.
    pub fn append_to(self, out: &mut Vec<u8>) -> Result<(), AllocError>
        requires { IsReadableData self }
        ensures ok { OnOk result (out.new.items ≡ out.old.items ++ data_shown self.entry) }
        ensures err { OnErr result (out.new.items ≡ out.old.items) }
        ensures utf8 { IsUtf8 out.old.items → IsUtf8 out.new.items }
    {
        match self {
            Data::Plain(text) => out.extend_from_slice(text.as_bytes()),
            Data::Escaped(written) => append_escaped(out, written),
        }
    }
}

/// Appends the data that a well escaped text represents. After a refusal `out` is as it was.
fn append_escaped(out: &mut Vec<u8>, written: &str) -> Result<(), AllocError>
    requires { IsSome (unescaped written.now) }
    ensures ok { OnOk result (out.new.items ≡ out.old.items ++ data_of written.now) }
    ensures err { OnErr result (out.new.items ≡ out.old.items) }
    ensures utf8 { IsUtf8 out.old.items → IsUtf8 out.new.items }
{
    match unescape_into(out, written) {
        Ok(()) => Ok(()),
        Err(TextFault::NoMemory) => Err(AllocError),
        Err(TextFault::BadEscape) => unreachable!(),
    }
}

/// The data that a well escaped text represents.
fn escaped_text(alloc: Global, written: &str) -> Result<TextBuf, AllocError>
    requires { IsSome (unescaped written.now) }
    ensures { IfOk result (λ text. text ≡ data_of written.now) }
{
    let mut read = Vec::with_capacity(alloc, written.len())?;
    match unescape_into(&mut read, written) {
        Ok(()) => (),
        Err(TextFault::NoMemory) => return Err(AllocError),
        Err(TextFault::BadEscape) => unreachable!(),
    }
    match String::from_utf8(read) {
        Ok(text) => TextBuf::from_string(text),
        Err(_) => unreachable!(),
    }
}

impl<'a> LineView<'a> {
    /// The line in memory of its own.
    pub fn to_line(self, alloc: Global) -> Result<Line, AllocError>
        requires { IsReadable self }
        ensures { IfOk result (λ line. line ≡ line_shown self.entry) }
    {
        match self {
            LineView::Start(name) => Ok(Line::Start(TextBuf::of(alloc, name)?)),
            LineView::Attr { name, value } => Ok(Line::Attr {
                name: TextBuf::of(alloc, name)?,
                value: value.to_text(alloc)?,
            }),
            LineView::Chars(text) => Ok(Line::Chars(text.to_text(alloc)?)),
            LineView::End(name) => Ok(Line::End(TextBuf::of(alloc, name)?)),
            LineView::Pi { target, value } => Ok(Line::Pi {
                target: TextBuf::of(alloc, target)?,
                value: value.to_text(alloc)?,
            }),
            LineView::Comment(text) => Ok(Line::Comment(text.to_text(alloc)?)),
        }
    }
}
