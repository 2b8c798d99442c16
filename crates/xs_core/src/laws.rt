//! What is true of the machine. The functions do nothing: their contracts are the laws.
ghost use Rattle.xs_core.specs.Laws.{OnePart, OneState, ReachesGood, StaysGood, WorkersStay};

/// Whatever steps the machine allows from the start on, they lead to a good state.
pub fn reaches_good()
    ensures { ReachesGood }
{}

/// The start is good, and each step that is allowed keeps a good state good.
pub fn stays_good()
    ensures { StaysGood }
{}

/// In a good state each place is in one part at most, once.
pub fn one_part()
    ensures { OnePart }
{}

/// A step leads to one state.
pub fn one_state()
    ensures { OneState }
{}

/// A step names workers that are there, and their number stays.
pub fn workers_stay()
    ensures { WorkersStay }
{}
