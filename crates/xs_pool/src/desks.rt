//! The desks of workers, with shares of one ledger.

ghost use Rattle.std.specs.List.{All};
ghost use Rattle.std.specs.Prelude.{◌≡◌, ◌+◌, ◌*◌, ◌<◌, ◌≤◌, ◌^◌, IfOk, length, true};
ghost use Rattle.xs_core.specs.Good.{total};
ghost use Rattle.xs_ledger.specs.Shares.{ledger_id, seats_of};
ghost use Rattle.xs_pool.specs.Starts.{IsFree, IsFresh};
ghost use Rattle.xs_pool.specs.Workers.{added_of, last_of, ledger_of, most_of};

use std::alloc::{AllocError, Global};
use std::sync::Arc;
use xs_block::pool::Pool;
use xs_ledger::ledger::{Ledger, Share};
use xs_ledger::total::LedgerTotal;
use xs_pieces::piece::Desk;
use xs_trace::total::Total;

/// A ledger, and desks with all its shares.
#[derive(Drop)]
pub(crate) struct Desks {
    /// The ledger.
    pub(crate) ledger: Arc<Ledger>,
    /// The desks.
    pub(crate) desks: Vec<Desk<LedgerTotal>>,
}

/// So many desks, of whose ledger the total may come to a limit.
pub(crate) fn open_desks(alloc: Global, limit: u64, count: u32) -> Result<Desks, AllocError>
    requires count { (0 < count) × (count ≤ 64) }
    requires limit { limit ≤ 2 ^ 40 }
    ensures seats { IfOk result (λ o. seats_of o.ledger.value ≡ count) }
    ensures count { IfOk result (λ o. length o.desks.items ≡ count) }
    ensures fresh { IfOk result (λ o.
        All (IsFresh (ledger_id o.ledger.value) limit) o.desks.items) }
{
    let (ledger, shares) = Ledger::new(alloc, count)?;
    let ledger = Arc::new(alloc, ledger)?;
    let desks = desks_of(alloc, &ledger, limit, shares)?;
    Ok(Desks { ledger, desks })
}

/// A desk for each share.
fn desks_of(
    alloc: Global,
    ledger: &Arc<Ledger>,
    limit: u64,
    mut shares: Vec<Share>,
) -> Result<Vec<Desk<LedgerTotal>>, AllocError>
    requires limit { limit ≤ 2 ^ 40 }
    requires shares { All (IsFree (ledger_id ledger.now.value)) shares.items }
    ensures count { IfOk result (λ ds. length ds.items ≡ length shares.items) }
    ensures fresh { IfOk result (λ ds.
        All (IsFresh (ledger_id ledger.now.value) limit) ds.items) }
{
    let mut desks = Vec::new(alloc);
    while let Some(share) = shares.pop() {
        let desk = Desk {
            share: LedgerTotal::new(ledger.clone()?, share, limit, 0),
            pool: Pool::new(alloc),
        };
        desks.push(desk)?;
    }
    Ok(desks)
}

/// Whether the last addition at one of some desks came above the limit.
pub(crate) fn is_above(desks: &[Desk<LedgerTotal>]) -> bool
    ensures above { result ≡ true →
        All (λ d. last_of d.share ≤ most_of d.share) desks.now → ⊥ }
{
    for k in 0..desks.len() {
        if ends_above(&desks[k]) {
            return true;
        }
    }
    false
}

/// Whether the last addition at a desk came above the limit.
fn ends_above(desk: &Desk<LedgerTotal>) -> bool
    ensures above { result ≡ true → most_of desk.now.share < last_of desk.now.share }
{
    desk.share.above().is_some()
}

/// What all desks of a ledger have added together: at most the limit, and 1,024 for each.
pub(crate) fn close_desks(
    alloc: Global,
    ledger: &Arc<Ledger>,
    mut desks: Vec<Desk<LedgerTotal>>,
    limit: u64,
) -> Result<u64, AllocError>
    requires count { length desks.items ≡ seats_of ledger.now.value }
    requires shares { All (λ d. ledger_of d.share ≡ ledger_id ledger.now.value) desks.items }
    requires most { All (λ d. most_of d.share ≡ limit) desks.items }
    ensures sum { IfOk result (λ n. n ≡ total (λ d. added_of d.share) desks.items) }
    ensures bounded { IfOk result (λ n. n ≤ limit + 1024 * length desks.items) }
    ensures answers { IfOk result (λ n. n ≤ limit →
        All (λ d. last_of d.share ≤ limit) desks.items) }
{
    let mut shares = Vec::new(alloc);
    while let Some(desk) = desks.pop() {
        let Desk { share, .. } = desk;
        shares.push(share.into_share())?;
    }
    Ok(ledger.close(shares))
}
