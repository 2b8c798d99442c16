//! What is true of outcomes. The functions do nothing: their contracts are the laws.
ghost use Rattle.xs_record.specs.Outcome.{OutcomesAgree};
ghost use Rattle.xs_record.specs.Piece.{NeverOver};

/// Two outcomes of one cut are the same, except where in their blocks the items lie.
pub fn outcomes_agree<H>()
    ensures { OutcomesAgree H }
{}

/// A run with a total to which nobody else adds, and whose most is the limit, never ends in Over.
pub fn never_over<H>()
    ensures { NeverOver H }
{}
