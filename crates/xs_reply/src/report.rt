//! What a run reports to whoever called it.

ghost use Rattle.std.specs.Prelude.{◌≡◌, [], length, None};
ghost use Rattle.xs_reply.specs.declared.status.TheConstants.{NO_MEMORY};

use crate::reply::{Pieces, Reply, ReportedFault};
use crate::status::NO_MEMORY;
use std::alloc::Global;
use xs_block::chain::Chain;
use xs_core::place::Claim;
use xs_record::segment::Segment;

/// What a run reports besides what it wrote.
#[derive(Drop)]
pub struct Report {
    /// How the run ended, as `status` names it.
    pub status: u8,
    /// How many ticks passed the budget's cut; 0 except on `OK`, `RUN_FAULT`, and `WRITE_FAULT`,
    /// where it is that of the expected status.
    pub ticks: u64,
    /// The fault that ended the run, also where its line could not be written; none on `NO_MEMORY`.
    pub fault: Option<ReportedFault>,
    /// How many pieces the workers claimed.
    pub pieces: u64,
    /// How many pieces were evaluated again in their place.
    pub inline: u64,
    /// Each place that a worker claimed, sorted.
    pub claims: Vec<Claim>,
    /// How many ticks all pieces took, with those that were evaluated again in their place.
    pub worked: u64,
    /// What the pieces recorded: most of a run's memory, which a program that ends may leave to the
    /// system.
    pub items: Chain<Segment>,
}

/// The report of a reply, which ended with this status.
pub fn report_of(status: u8, reply: Reply) -> Report
    ensures status { result.status ≡ status }
    ensures ticks { result.ticks ≡ reply.ticks }
    ensures fault { result.fault ≡ reply.fault }
    ensures pieces { result.pieces ≡ length reply.pieces.claims.items }
    ensures inline { result.inline ≡ reply.pieces.inline }
    ensures claims { result.claims.items ≡ reply.pieces.claims.items }
    ensures worked { result.worked ≡ reply.pieces.worked }
    ensures items { result.items ≡ reply.pieces.items }
{
    let Reply {
        fault,
        ticks,
        pieces,
        ..
    } = reply;
    let Pieces {
        claims,
        inline,
        worked,
        items,
    } = pieces;
    Report {
        status,
        ticks,
        fault,
        pieces: claims.len() as u64,
        inline,
        claims,
        worked,
        items,
    }
}

/// The report of a run that was out of memory.
pub fn refused_memory(alloc: Global) -> Report
    ensures status { result.status ≡ NO_MEMORY }
    ensures ticks { result.ticks ≡ 0 }
    ensures fault { result.fault ≡ None }
    ensures pieces { (result.pieces ≡ 0) × (result.inline ≡ 0) × (result.claims.items ≡ [])
        × (result.worked ≡ 0) }
{
    Report {
        status: NO_MEMORY,
        ticks: 0,
        fault: None,
        pieces: 0,
        inline: 0,
        claims: Vec::new(alloc),
        worked: 0,
        items: Chain::new(alloc),
    }
}
