//! Why no tree was built, and the numbers of the faults of a document.

ghost use Rattle.std.specs.Prelude.{◌≡◌};
ghost use Rattle.xs_build.specs.declared.fault.BuildFault.TheVariants.{NoMemory};

use std::alloc::{AllocError, AllocFailed};
use thiserror::Error;

/// A line that is none, or an attribute that follows no start tag.
pub const BAD_LINE: u8 = 1;
/// A backslash that begins no escape.
pub const BAD_ESCAPE: u8 = 2;
/// Bytes that are not UTF-8.
pub const BAD_UTF8: u8 = 3;
/// A last line that no line feed ends.
pub const NO_FINAL_LINE_FEED: u8 = 4;
/// A second element outside, other text than white space outside, or an end of another name than
/// the innermost open element's.
pub const UNBALANCED: u8 = 5;
/// No element.
pub const NO_ROOT: u8 = 6;
/// A name that is no QName, or a target that is no NCName or is `xml`.
pub const BAD_NAME: u8 = 7;
/// A prefix that is not bound.
pub const UNBOUND_PREFIX: u8 = 8;
/// A second attribute of one expanded name in a start tag.
pub const DOUBLE_ATTRIBUTE: u8 = 9;
/// A declaration that is forbidden.
pub const BAD_NAMESPACE: u8 = 10;
/// More bytes than the limit, or more nodes than a tree may have.
pub const TOO_LARGE: u8 = 11;
/// An element that is open at the end.
pub const TRUNCATED: u8 = 12;

/// Why no tree was built.
#[derive(Debug, Drop, Error)]
pub enum BuildFault {
    /// A line is bad: the first one that is, counted from 1; or the document as a whole has more
    /// bytes than the limit, which is fault 11 at line 0, or no element (6) or one that is not
    /// closed (12), at its last line.
    #[error("fault {number} at line {line}")]
    Bad {
        /// The number of the fault, 1 to 12.
        number: u8,
        /// The number of the line.
        line: u32,
    },
    /// Memory ran out.
    #[error("out of memory")]
    NoMemory,
}

impl From<AllocError> for BuildFault {
    ghost from_gives = { λ _ e. e ≡ NoMemory };

    /// Memory ran out.
    fn from(_error: AllocError) -> BuildFault {
        BuildFault::NoMemory
    }
}

impl<T: Drop> From<AllocFailed<T>> for BuildFault {
    ghost from_gives = { λ _ e. e ≡ NoMemory };

    /// Memory ran out, and the value is let go.
    fn from(_error: AllocFailed<T>) -> BuildFault {
        BuildFault::NoMemory
    }
}
