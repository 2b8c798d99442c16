//! Why a text is no expression.

use thiserror::Error;

/// A fault, and its first byte's place.
#[derive(Clone, Copy)]
pub enum Fault {
    /// The text is in no spelling of the grammar.
    Syntax,
    /// A function has an unknown name.
    UnknownFunction(u32),
    /// A function has a wrong number of arguments.
    ArgCount(u32),
    /// A number has a fraction, or is past the limit.
    BadLiteral(u32),
    /// Brackets and minus signs are nested more than 64 deep.
    TooNested(u32),
    /// An expression is no pattern.
    NotPattern(u32),
    /// A prefix is not bound.
    UnboundPrefix(u32),
}

/// A fault that one lexeme has.
#[derive(Clone, Copy)]
pub(crate) enum Check {
    /// An unknown function.
    Unknown,
    /// A number with a fraction, or past the limit.
    Literal,
    /// An unbound prefix.
    Unbound,
}

/// Why there is no expression.
#[derive(Debug, Drop, Error)]
pub enum ParseFault {
    /// The text has a fault.
    #[error("fault {number} at byte {at}")]
    Bad {
        /// The fault's number: 20 in no spelling of the grammar, 21 an unknown function, 22 a
        /// wrong number of arguments, 23 a number with a fraction or past the limit, 24 nested
        /// too deep, 25 no pattern, 38 an unbound prefix.
        number: u8,
        /// The place of its first byte.
        at: u32,
    },
    /// Out of memory.
    #[error("out of memory")]
    NoMemory,
}
