//! Totals of ticks that several runs share.
ghost use Rattle.std.specs.Prelude.{◌≡◌, ℕ, ◌+◌, ◌≤◌, ◌^◌};
ghost use Rattle.xs_trace.specs.Total.{over};

/// A share in a total. No addition follows one that was answered with more than the most.
pub trait Total {
    /// What no addition changes.
    ghost Kept: { Type 0 };

    /// That, of this one.
    ghost kept: { Self → Self.Kept };

    /// The most that the total may come to.
    ghost most: { Self → ℕ };

    /// What was added through this share.
    ghost added: { Self → ℕ };

    /// The total that the last addition was answered with; 0 where there was none.
    ghost last: { Self → ℕ };

    /// The total that the addition before the last one was answered with; 0 where there was none.
    ghost before: { Self → ℕ };

    /// The most that the total may come to.
    fn limit(&self) -> u64
        ensures most { result ≡ most self.now };

    /// The total that the last addition was answered with, where it is above the most.
    fn above(&self) -> Option<u64>
        ensures above { result ≡ over (most self.now) (last self.now) };

    /// Adds ticks to the total, and answers what it came to.
    fn add(&mut self, count: u64) -> u64
        requires few { count ≤ 1024 }
        requires open { last self.old ≤ most self.old }
        ensures kept { Self.kept self.new ≡ Self.kept self.old }
        ensures most { most self.new ≡ most self.old }
        ensures added { added self.new ≡ added self.old + count }
        ensures last { last self.new ≡ result }
        ensures before { before self.new ≡ last self.old }
        ensures grows { last self.old + count ≤ result };

    /// What was added is in the last answer.
    ghost seen: { (t : Self) → added t ≤ last t };

    /// Every addition but the last one was answered with at most the most: answers grow, and the
    /// one before the last is within it.
    ghost within: { (t : Self) → before t ≤ most t };
}

/// A total to which nobody else adds while this run lasts.
#[derive(Clone, Copy, Debug)]
pub struct LocalTotal {
    most: u64,
    // What others had added before, and what this run has.
    others: u64,
    added: u64,
    // The last two answers.
    last: u64,
    before: u64,
    ghost most_bounded: { most ≤ 2 ^ 40 },
    ghost others_bounded: { others ≤ 2 ^ 40 },
    ghost last_bounded: { last ≤ 2 ^ 42 },
    pub ghost exact: { last ≤ others + added },
    pub ghost seen: { added ≤ last },
    pub ghost within: { before ≤ most },
}

impl LocalTotal {
    /// Nothing was added yet by this run; others had added so much.
    pub fn new(most: u64, others: u64) -> LocalTotal
        requires most { most ≤ 2 ^ 40 }
        requires others { others ≤ 2 ^ 40 }
        ensures kept { ⟦<LocalTotal as Total>⟧.kept result ≡ others }
        ensures most { ⟦<LocalTotal as Total>⟧.most result ≡ most }
        ensures added { ⟦<LocalTotal as Total>⟧.added result ≡ 0 }
        ensures last { ⟦<LocalTotal as Total>⟧.last result ≡ 0 }
    {
        LocalTotal {
            most,
            others,
            added: 0,
            last: 0,
            before: 0,
        }
    }
}

impl Total for LocalTotal {
    ghost Kept = { ℕ };

    ghost kept = { λ t. t.others };

    ghost most = { λ t. t.most };

    ghost added = { λ t. t.added };

    ghost last = { λ t. t.last };

    ghost before = { λ t. t.before };

    ghost seen = { λ t. t.seen };

    ghost within = { λ t. t.within };

    /// As made.
    fn limit(&self) -> u64 {
        self.most
    }

    /// The last answer.
    fn above(&self) -> Option<u64> {
        if self.last > self.most {
            Some(self.last)
        } else {
            None
        }
    }

    /// The sum of what all have added.
    fn add(&mut self, count: u64) -> u64 {
        self.before = self.last;
        self.added += count;
        self.last = self.others + self.added;
        self.last
    }
}
