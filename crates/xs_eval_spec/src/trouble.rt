//! Why an evaluation has no value.

ghost use Rattle.std.specs.Prelude.{◌≡◌};
ghost use Rattle.xs_eval_spec.specs.Results.{Answers, halted, numeric, settled};
ghost use Rattle.xs_eval_spec.specs.declared.trouble.Trouble.TheVariants.{NoMemory};

use std::alloc::{AllocError, AllocFailed};
use xs_num::number::{Num, NumFault};
use xs_trace::fault::Fault;
use xs_trace::item::Site;
use xs_trace::recorder::Halt;

/// Why a function has no value.
#[derive(Clone, Copy, PartialEq, Eq, Debug)]
pub enum Trouble {
    /// It has a fault.
    Fault(Fault),
    /// Memory ran out.
    NoMemory,
}

impl From<AllocError> for Trouble {
    ghost from_gives = { λ _ made. made ≡ NoMemory };

    /// Out of memory.
    fn from(_refused: AllocError) -> Trouble {
        Trouble::NoMemory
    }
}

impl<T: Drop> From<AllocFailed<T>> for Trouble {
    ghost from_gives = { λ _ made. made ≡ NoMemory };

    /// Out of memory; what there was no room for is dropped.
    fn from(_refused: AllocFailed<T>) -> Trouble {
        Trouble::NoMemory
    }
}

/// What an operation on numbers gives.
pub fn or_trouble(operation: Result<Num, NumFault>) -> Result<Num, Trouble>
    ensures number { Answers (numeric operation) result }
{
    match operation {
        Ok(number) => Ok(number),
        Err(NumFault::Fraction) => Err(Trouble::Fault(Fault::Fraction)),
        Err(NumFault::Range) => Err(Trouble::Fault(Fault::Range)),
    }
}

impl Trouble {
    /// The end of a run in this trouble, at an instruction.
    pub fn at(self, site: Site) -> Halt
        ensures { result ≡ halted self site }
    {
        match self {
            Trouble::Fault(fault) => Halt::Fault(fault, site),
            Trouble::NoMemory => Halt::NoMemory,
        }
    }
}

/// What is answered at an instruction.
#[inline(always)]
pub fn or_halt<A>(answer: Result<A, Trouble>, site: Site) -> Result<A, Halt>
    ensures { result ≡ settled site answer }
{
    match answer {
        Ok(value) => Ok(value),
        Err(trouble) => Err(trouble.at(site)),
    }
}
