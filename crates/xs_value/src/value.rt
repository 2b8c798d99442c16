//! A value of XPath (XPath 1.0, 1; XSLT 1.0, 11.1).

ghost use Rattle.std.specs.Prelude.{◌≡◌, IfOk};
ghost use Rattle.xs_value.specs.Results.{as_value_fault};
ghost use Rattle.xs_value.specs.declared.value.ValueFault.TheVariants.{NoMemory};

use crate::node_set::NodeSet;
use crate::shared::SharedFragment;
use std::alloc::{AllocError, AllocFailed};
use thiserror::Error;
use xs_num::number::{Num, NumFault};
use xs_text::TextBuf;

/// A value: an object of XPath 1.0, or a fragment of a result tree (XSLT 1.0, 11.1).
#[derive(Debug, Drop)]
pub enum Value {
    /// A boolean.
    Bool(bool),
    /// A number.
    Number(Num),
    /// A string.
    Chars(TextBuf),
    /// A node-set.
    Nodes(NodeSet),
    /// A fragment of a result tree.
    Piece(SharedFragment),
}

impl Value {
    /// An equal value, in constant time.
    pub fn copy(&self) -> Result<Value, AllocError>
        ensures value { IfOk result (λ copy. copy ≡ self.now) }
    {
        Ok(match self {
            Value::Bool(boolean) => Value::Bool(*boolean),
            Value::Number(number) => Value::Number(*number),
            Value::Chars(text) => Value::Chars(text.copy()?),
            Value::Nodes(nodes) => Value::Nodes(nodes.copy()?),
            Value::Piece(fragment) => Value::Piece(fragment.copy()?),
        })
    }
}

/// Why a conversion or a comparison has no result.
#[derive(Clone, Copy, PartialEq, Eq, Debug, Error)]
pub enum ValueFault {
    /// A text spells a number that is no whole number.
    #[error("the number is a fraction")]
    Fraction,
    /// A text spells a number of too large a magnitude.
    #[error("the number is out of range")]
    Range,
    /// Memory ran out.
    #[error("out of memory")]
    NoMemory,
}

impl From<NumFault> for ValueFault {
    ghost from_gives = { λ fault made. made ≡ as_value_fault fault };

    /// The same fault.
    fn from(fault: NumFault) -> ValueFault {
        match fault {
            NumFault::Fraction => ValueFault::Fraction,
            NumFault::Range => ValueFault::Range,
        }
    }
}

impl From<AllocError> for ValueFault {
    ghost from_gives = { λ _ made. made ≡ NoMemory };

    /// Out of memory.
    fn from(_refused: AllocError) -> ValueFault {
        ValueFault::NoMemory
    }
}

impl<T: Drop> From<AllocFailed<T>> for ValueFault {
    ghost from_gives = { λ _ made. made ≡ NoMemory };

    /// Out of memory; what there was no room for is dropped.
    fn from(_refused: AllocFailed<T>) -> ValueFault {
        ValueFault::NoMemory
    }
}
