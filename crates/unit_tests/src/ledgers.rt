//! Ledgers: shares that add in turn, a share as a total, two threads that add at once, refused
//! memory.

ghost use Rattle.std.specs.Prelude.{◌≡◌, ◌≤◌, IfOk};
ghost use Rattle.xs_ledger.specs.Shares.{ledger_id, seats_of, share_ledger_id, IsShareOf, IsUnused};

use std::alloc::{AllocError, Global};
use std::sync::Arc;
use std::thread;
use xs_ledger::ledger::{Ledger, Share};
use xs_ledger::total::LedgerTotal;
use xs_trace::total::Total;

// A ledger and its two shares.
fn ledger_for_two(alloc: Global) -> Result<(Ledger, Share, Share), AllocError>
    ensures seats { IfOk result (λ r. seats_of r.0 ≡ 2) }
    ensures one { IfOk result (λ r. IsShareOf (ledger_id r.0) r.1 × IsUnused r.1) }
    ensures two { IfOk result (λ r. IsShareOf (ledger_id r.0) r.2 × IsUnused r.2) }
{
    let (ledger, mut shares) = Ledger::new(alloc, 2)?;
    let Some(two) = shares.pop() else {
        unreachable!()
    };
    let Some(one) = shares.pop() else {
        unreachable!()
    };
    Ok((ledger, one, two))
}

// The total, where both shares come back.
fn total_of_two(alloc: Global, ledger: &Ledger, one: Share, two: Share) -> Result<u64, AllocError>
    requires seats { seats_of ledger.now ≡ 2 }
    requires one { IsShareOf (ledger_id ledger.now) one }
    requires two { IsShareOf (ledger_id ledger.now) two }
{
    let mut shares = Vec::new(alloc);
    shares.push(one)?;
    shares.push(two)?;
    Ok(ledger.close(shares))
}

// The share, after one addition.
fn add_once(ledger: &Ledger, mut share: Share, n: u32) -> Share
    requires share { IsShareOf (ledger_id ledger.now) share × IsUnused share }
    ensures share { IsShareOf (ledger_id ledger.now) result }
{
    ledger.add(&mut share, u64::from(n));
    share
}

#[test]
fn answers_the_word_after_each_addition(rt: HostRuntime) -> Result<(), AllocError> {
    let (ledger, mut one, mut two) = ledger_for_two(rt.alloc())?;
    let first = ledger.add(&mut one, 10);
    let second = ledger.add(&mut two, 10);
    let total = total_of_two(rt.alloc(), &ledger, one, two)?;
    assert!(rt; first == 10 && second == 20 && total == 20);
    Ok(())
}

// One addition, unless the last answer was above the limit.
fn add_within(total: &mut LedgerTotal, count: u64) -> Option<u64>
    requires few { count ≤ 1024 }
    ensures ledger { share_ledger_id total.new.share ≡ share_ledger_id total.old.share }
{
    match total.above() {
        Some(_) => None,
        None => Some(total.add(count)),
    }
}

// Whether 1024 are added, and do not go above the limit.
fn stays_below(total: &mut LedgerTotal) -> bool
    ensures ledger { share_ledger_id total.new.share ≡ share_ledger_id total.old.share }
{
    let added = add_within(total, 1024);
    added == Some(1024) && total.above() == None
}

// Whether one more goes above the limit of 1030, and another is not added.
fn goes_above(total: &mut LedgerTotal) -> bool
    ensures ledger { share_ledger_id total.new.share ≡ share_ledger_id total.old.share }
{
    let added = add_within(total, 1);
    let above = total.above();
    let refused = add_within(total, 1);
    added == Some(1031) && above == Some(1031) && refused == None
}

#[test]
fn a_share_as_a_total_goes_above_its_limit_once(rt: HostRuntime) -> Result<(), AllocError> {
    let (ledger, one, mut two) = ledger_for_two(rt.alloc())?;
    let ledger = Arc::new(rt.alloc(), ledger)?;
    let mut total = LedgerTotal::new(ledger.clone()?, one, 1030, 0);
    let is_below = total.limit() == 1030 && stays_below(&mut total);
    let others = ledger.add(&mut two, 6);
    let is_above = goes_above(&mut total);
    let one = total.into_share();
    let sum = total_of_two(rt.alloc(), &ledger, one, two)?;
    assert!(rt; is_below && is_above && others == 1030 && sum == 1031);
    Ok(())
}

#[test]
fn counts_what_two_threads_add(rt: HostRuntime) -> Result<(), AllocError> {
    let (ledger, one, two) = ledger_for_two(rt.alloc())?;
    let counted = &ledger;
    let (one, two) = thread::join(
        &rt,
        move || add_once(counted, one, 1024),
        move || add_once(counted, two, 3),
    );
    let total = total_of_two(rt.alloc(), &ledger, one, two)?;
    assert!(rt; total == 1027);
    Ok(())
}

#[test]
fn makes_all_shares_or_refuses(rt: HostRuntime) {
    let made = Ledger::new(rt.alloc(), 64);
    match made {
        Ok((ledger, shares)) => {
            assert!(rt; shares.len() == 64);
            assert!(rt; ledger.close(shares) == 0);
        }
        Err(AllocError) => {}
    }
}
