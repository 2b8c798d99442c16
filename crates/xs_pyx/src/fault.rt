//! What is wrong with a line.

ghost use Rattle.std.specs.Prelude.{◌≡◌};
ghost use Rattle.xs_pyx.specs.Faults.{number_of};
ghost use Rattle.xs_pyx.specs.declared.line.LineFault.TheVariants.{Bad};

use crate::line::LineFault;

/// A fault of a line by itself.
#[derive(Clone, Copy, Debug)]
pub enum Fault {
    /// The line is empty, or its first byte begins no line.
    BadLine,
    /// A backslash begins no pair.
    BadEscape,
    /// The line is not UTF-8.
    BadUtf8,
    /// No line feed ends the line.
    NoFinalLineFeed,
}

impl Fault {
    /// The number that the fault is reported by.
    pub fn number(self) -> u8
        ensures { result ≡ number_of self }
    {
        match self {
            Fault::BadLine => 1,
            Fault::BadEscape => 2,
            Fault::BadUtf8 => 3,
            Fault::NoFinalLineFeed => 4,
        }
    }
}

impl From<Fault> for LineFault {
    ghost from_gives = { λ fault e. e ≡ Bad (number_of fault) };

    fn from(fault: Fault) -> LineFault {
        LineFault::Bad {
            number: fault.number(),
        }
    }
}
