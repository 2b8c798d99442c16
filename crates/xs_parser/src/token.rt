//! The tokens of an expression (XPath 1.0, 3.7).

use xs_text::TextBuf;
use xs_tree::Axis;
use xs_xpath::name::{Function, NodeTest};
use xs_xpath::token::{Atom, Operator};

/// A name as it is written: its prefix, which may be empty, and its local part.
#[derive(Drop)]
pub struct QName {
    pub prefix: TextBuf,
    pub local: TextBuf,
}

/// A token whose names are resolved. A function's name and the bracket after it are one token,
/// and so are an axis' name and
/// its colons, a node type and its brackets, and a variable and its dollar sign. A minus sign
/// before an operand is `Negate`.
#[derive(Drop)]
pub enum Token {
    Round,
    Call(Function),
    EndRound,
    Square,
    EndSquare,
    Comma,
    Slash,
    Slashes,
    Negate,
    Infix(Operator),
    /// `name::`, or `@`.
    OnAxis(Axis),
    Test(NodeTest),
    /// `.` and `..`, by their axis.
    Dots(Axis),
    Atom(Atom),
}

/// A token as it is written, its names not yet resolved.
#[derive(Drop)]
pub enum Lexeme {
    /// A token without a name.
    Ready(Token),
    /// `p:*`, by its prefix.
    AnyOf(TextBuf),
    /// A name test.
    Named(QName),
    /// A function's name and the bracket after it.
    Called(QName),
    /// A variable.
    Variable(QName),
    /// A number.
    Number(TextBuf),
}

/// A lexeme, and the place of its first byte in the text.
#[derive(Drop)]
pub struct Placed {
    pub at: u32,
    pub lexeme: Lexeme,
}
