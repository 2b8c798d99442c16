//! Operators, and expressions of one token (XPath 1.0, 3.1 and 3.3 to 3.5).

use xs_num::number::Num;
use xs_text::TextBuf;

/// An operator between two operands.
#[derive(Clone, Copy)]
pub enum Operator {
    Or,
    And,
    Equal,
    Unequal,
    Less,
    LessEqual,
    Greater,
    GreaterEqual,
    Plus,
    Minus,
    Times,
    Div,
    /// A `div` that is all of the argument of `floor`.
    FloorDiv,
    /// A `div` that is all of the argument of `ceiling`.
    CeilingDiv,
    /// A `div` that is all of the argument of `round`.
    NearestDiv,
    Mod,
    Union,
}

/// An expression of one token: a number, a literal, or a variable by its URI and local part.
#[derive(Drop)]
pub enum Atom {
    Number(Num),
    Literal(TextBuf),
    Variable(TextBuf, TextBuf),
}
