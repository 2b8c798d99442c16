//! A share as the total that a run adds its ticks to.

ghost use Rattle.std.specs.Prelude.{◌≡◌, ◌≤◌, ◌^◌};
ghost use Rattle.atomic_table.specs.Seated.{TableId};
ghost use Rattle.xs_ledger.specs.Additions.{last_answer, ticks_above};
ghost use Rattle.xs_ledger.specs.Shares.{additions, ledger_id, own, share_ledger_id, weight};
ghost use Rattle.xs_ledger.specs.Shares.{IsShareOf};
ghost use Rattle.xs_ledger.specs.Totals.{answer_before, AreWithin};

use crate::ledger::{Ledger, Share};
use std::sync::Arc;
use xs_trace::total::Total;

/// A share that holds its ledger, and the most that the word may come to. Each of its additions is
/// of at most 1,024 ticks, and each but the last was answered with at most the limit.
#[derive(Drop)]
pub struct LedgerTotal {
    ledger: Arc<Ledger>,
    share: Share,
    limit: u64,
    // The last answer, 0 where there is none.
    last: u64,
    ghost of_ledger: { IsShareOf (ledger_id ledger.value) share },
    ghost bounded: { limit ≤ 2 ^ 40 },
    ghost answered: { last ≡ last_answer (additions share) },
    ghost are_within: { AreWithin limit (additions share) },
    pub ghost earlier: { answer_before (additions share) ≤ limit },
}

impl LedgerTotal {
    /// A share, whose last answer is known. A share that has added nothing has the last answer 0.
    pub fn new(ledger: Arc<Ledger>, share: Share, limit: u64, last: u64) -> LedgerTotal
        requires share { IsShareOf (ledger_id ledger.value) share }
        requires limit { limit ≤ 2 ^ 40 }
        requires last { last ≡ last_answer (additions share) }
        requires within { AreWithin limit (additions share) }
        ensures share { result.share ≡ share }
        ensures limit { result.limit ≡ limit }
    {
        LedgerTotal {
            ledger,
            share,
            limit,
            last,
        }
    }

    /// The share, with all its additions. Of their ticks at most 1,024 were answered above the
    /// limit.
    pub fn into_share(self) -> Share
        ensures share { result ≡ self.share }
        ensures of_ledger { IsShareOf (ledger_id self.ledger.value) result }
        ensures within { AreWithin self.limit (additions result) }
        ensures above { weight (ticks_above self.limit) result ≤ 1024 }
    {
        let LedgerTotal { share, .. } = self;
        share
    }
}

impl Total for LedgerTotal {
    ghost Kept = { TableId };

    ghost kept = { λ t. share_ledger_id t.share };

    ghost most = { λ t. t.limit };

    ghost added = { λ t. own t.share };

    ghost last = { λ t. last_answer (additions t.share) };

    ghost before = { λ t. answer_before (additions t.share) };

    ghost seen = { λ t. t.share.own_is_seen };

    ghost within = { λ t. t.earlier };

    /// As made.
    fn limit(&self) -> u64 {
        self.limit
    }

    /// The last answer.
    fn above(&self) -> Option<u64> {
        if self.last > self.limit {
            Some(self.last)
        } else {
            None
        }
    }

    /// One addition to the ledger.
    fn add(&mut self, count: u64) -> u64 {
        self.last = self.ledger.add(&mut self.share, count);
        self.last
    }
}
