//! Import precedence and priority (XSLT 1.0, 2.6.2 and 5.5).

ghost use Rattle.std.specs.Prelude.{◌≡◌};
ghost use Rattle.xs_pattern_spec.specs.Ranks.{outranks};

/// By what template rules and tests of elements are compared.
#[derive(Clone, Copy, PartialEq, Eq, Debug)]
pub struct Rank {
    /// The import precedence.
    pub precedence: u32,
    /// The priority, in ten-thousandths.
    pub priority: i64,
}

impl Rank {
    /// Whether this is above another: by a higher precedence, or at the same one by a higher
    /// priority.
    pub fn outranks(self, other: Rank) -> bool
        ensures { result ≡ outranks self other }
    {
        if other.precedence < self.precedence {
            return true;
        }
        other.precedence == self.precedence && other.priority < self.priority
    }
}
