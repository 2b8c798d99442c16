//! Why a name is not made.

use std::alloc::AllocError;
use thiserror::Error;
use xs_trace::fault::Fault;

/// Why a name is not made.
#[derive(Clone, Copy, PartialEq, Eq, Debug, Error)]
pub enum MakeEnd {
    /// The run ends in this fault: 60 where the text is no name that the result can have, 61 where
    /// its prefix is bound to nothing.
    #[error("the run ends in a fault")]
    Fault(Fault),
    /// Memory ran out.
    #[error("out of memory")]
    NoMemory,
}

impl From<AllocError> for MakeEnd {
    ghost use Rattle.std.specs.Prelude.{◌≡◌};
    ghost use Rattle.xs_making.specs.declared.ends.MakeEnd.TheVariants.{NoMemory};

    ghost from_gives = { λ _ end. end ≡ NoMemory };

    /// Memory ran out.
    fn from(_error: AllocError) -> MakeEnd {
        MakeEnd::NoMemory
    }
}
