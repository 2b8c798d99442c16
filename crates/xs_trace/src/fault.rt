//! The faults in which a run can end.
ghost use Rattle.std.specs.Prelude.{◌≡◌};
ghost use Rattle.xs_trace.specs.Fault.{fault_number};

/// A fault in which a run can end.
#[derive(Clone, Copy, PartialEq, Eq, Debug)]
pub enum Fault {
    /// The run takes more ticks than its limit.
    Budget,
    /// A number is no whole number.
    Fraction,
    /// A number is too large.
    Range,
    /// A value is no node-set where one is needed.
    NotNodes,
    /// A name is that of no key.
    NoKey,
    /// Templates nest too deep.
    TooDeep,
    /// No template is current where `xsl:apply-imports` needs one.
    NoRule,
    /// A message terminates the run.
    Terminated,
    /// An extension element has no fallback.
    NoExtension,
    /// A global variable needs its own value.
    Circular,
    /// A name in the result is no name.
    BadResultName,
    /// A name in the result has a prefix that is bound to nothing.
    UnboundResultPrefix,
    /// An attribute of an instruction has a value that it can't have.
    BadValue,
    /// The run puts more events than its limit.
    TooManyEvents,
    /// No document has the name.
    NoDocument,
}

impl Fault {
    /// Its number, as it is reported.
    pub fn number(self) -> u8
        ensures number { result ≡ fault_number self }
    {
        match self {
            Fault::Budget => 50,
            Fault::Fraction => 51,
            Fault::Range => 52,
            Fault::NotNodes => 53,
            Fault::NoKey => 54,
            Fault::TooDeep => 55,
            Fault::NoRule => 56,
            Fault::Terminated => 57,
            Fault::NoExtension => 58,
            Fault::Circular => 59,
            Fault::BadResultName => 60,
            Fault::UnboundResultPrefix => 61,
            Fault::BadValue => 62,
            Fault::TooManyEvents => 63,
            Fault::NoDocument => 64,
        }
    }
}
