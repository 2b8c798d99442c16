//! The bytes that lines begin with.

ghost use Rattle.std.specs.Prelude.{◌≡◌};
ghost use Rattle.xs_pyx.specs.Reading.{begins_line};

/// The start of an element.
pub(crate) const START: u8 = b'(';
/// An attribute.
pub(crate) const ATTRIBUTE: u8 = b'A';
/// A text.
pub(crate) const TEXT: u8 = b'-';
/// The end of an element.
pub(crate) const END: u8 = b')';
/// A processing instruction.
pub(crate) const INSTRUCTION: u8 = b'?';
/// A comment.
pub(crate) const COMMENT: u8 = b'C';

/// Whether a line may begin with a byte.
pub(crate) fn begins_line(kind: u8) -> bool
    ensures { result ≡ begins_line kind }
{
    matches!(kind, START | ATTRIBUTE | TEXT | END | INSTRUCTION | COMMENT)
}
