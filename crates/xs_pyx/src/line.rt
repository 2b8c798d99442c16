//! One line of a document.

ghost use Rattle.std.specs.Prelude.{◌≡◌};
ghost use Rattle.xs_pyx.specs.declared.line.LineFault.TheVariants.{NoMemory};

use std::alloc::AllocError;
use thiserror::Error;
use xs_text::TextBuf;

/// A line of a document. Names are as they are written, values and texts are the data that stands
/// behind their escapes.
#[derive(Debug, Drop)]
pub enum Line {
    /// The start of an element of this name.
    Start(TextBuf),
    /// An attribute of the element that just started.
    Attr { name: TextBuf, value: TextBuf },
    /// Text.
    Chars(TextBuf),
    /// The end of an element of this name.
    End(TextBuf),
    /// A processing instruction.
    Pi { target: TextBuf, value: TextBuf },
    /// A comment.
    Comment(TextBuf),
}

/// Why there is no line.
#[derive(Debug, Drop, Error)]
pub enum LineFault {
    /// The first line has a `Fault`. Of several it is the first in the order `BadUtf8`, `BadLine`,
    /// `BadEscape`, `NoFinalLineFeed`.
    #[error("fault {number} on the line")]
    Bad {
        /// The number of the fault.
        number: u8,
    },
    /// Memory ran out.
    #[error("out of memory")]
    NoMemory,
}

impl From<AllocError> for LineFault {
    ghost from_gives = { λ _ e. e ≡ NoMemory };

    fn from(_error: AllocError) -> LineFault {
        LineFault::NoMemory
    }
}
