//! How a run ended, by what its last call gave.
ghost use Rattle.std.specs.Prelude.{◌≡◌, IfOk};
ghost use Rattle.xs_trace.specs.Kept.{NeedsNone, IsEnded, spot as spot_of};

use std::alloc::AllocError;
use xs_trace::fault::Fault;
use xs_trace::item::{Ended, Site, Spot};
use xs_trace::recorder::Halt;

/// How a run ended that needed no global.
pub(crate) fn ended(reported: Result<(), Halt>) -> Result<Ended, AllocError>
    requires settled { NeedsNone reported }
    ensures ended { IfOk result (λ ended. IsEnded reported ended) }
{
    match reported {
        Ok(()) => Ok(Ended::Whole),
        Err(Halt::Fault(fault, site)) => Ok(Ended::Fault(spot(fault, site))),
        Err(Halt::Needs(_, _)) => unreachable!(),
        Err(Halt::Spent(site)) => Ok(Ended::Spent(spot(Fault::Budget, site))),
        Err(Halt::Full(site)) => Ok(Ended::Full(spot(Fault::TooManyEvents, site))),
        Err(Halt::Over { total }) => Ok(Ended::Over { total }),
        Err(Halt::NoMemory) => Err(AllocError),
    }
}

/// A fault at an instruction.
fn spot(fault: Fault, site: Site) -> Spot
    ensures spot { result ≡ spot_of fault site }
{
    Spot {
        fault,
        module: site.module,
        line: site.line,
    }
}
