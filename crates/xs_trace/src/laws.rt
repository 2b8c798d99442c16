//! What is true of traces and their cuts. The functions do nothing: their contracts are the laws.
ghost use Rattle.xs_trace.specs.Laws.{ThenIsAssociative, ThenHasAUnit, CutIsLongest};
ghost use Rattle.xs_trace.specs.Laws.{CutOfThen, CutOfCut, CutWithoutPuts, PartsOfJoined};
ghost use Rattle.xs_trace.specs.PlayLaws.{PlayOfThen, PlayOfTicks, PlayOfPut, PlayOfSay};
ghost use Rattle.xs_trace.specs.PlayLaws.{PlayOfCaptured, CapturesFrom, PlayGrows, PlayIsCut};
ghost use Rattle.xs_trace.specs.Run.{LimitedLaws, FoldLaws};
ghost use Rattle.xs_trace.specs.Keeping.{ReportedIsCut, NeedComesFromNeed, PackedOnce};
ghost use Rattle.xs_trace.specs.Fill.{FillLaws};
ghost use Rattle.xs_trace.specs.PieceLaws.{CutServes, CutsTellSame, NumberedLaws};

/// Parts joined by `then` may be grouped in any way, and the empty trace changes nothing.
pub fn then_joins<H>()
    ensures associative { ThenIsAssociative H }
    ensures unit { ThenHasAUnit H }
{}

/// A cut passes the longest beginning within both limits, and the next mark decides its end.
pub fn cut_is_longest<H>()
    ensures { CutIsLongest H }
{}

/// The cut of two traces, one after the other, is the cut of the first and, where that is whole,
/// the cut of the second at what is left of the limits.
pub fn cut_of_then<H>()
    ensures { CutOfThen H }
{}

/// The cut at some limits determines the cut at all lower ones.
pub fn cut_of_cut<H>()
    ensures { CutOfCut H }
{}

/// Taking the puts away, as captured content does, commutes with the cut at a number of ticks.
pub fn cut_without_puts<H>()
    ensures { CutWithoutPuts H }
{}

/// The ticks, events and messages of joined marks are those of the parts, joined.
pub fn parts_of_joined<H>()
    ensures { PartsOfJoined H }
{}

/// Two traces are recorded one after the other.
pub fn play_of_then<H>()
    ensures { PlayOfThen H }
{}

/// Many ticks at one place may be recorded at once.
pub fn play_of_ticks<H>()
    ensures { PlayOfTicks H }
{}

/// What puts an event, and says a message, reports the ticks for its text and then the mark.
pub fn play_of_texts<H>()
    ensures event { PlayOfPut H }
    ensures message { PlayOfSay H }
{}

/// To open a capture, report the content, close the capture and go on with its events is to report
/// the captured content.
pub fn play_of_captured<H>()
    ensures { PlayOfCaptured H }
{}

/// What is captured from some events on gives those and the content's events, and reports all else
/// of the content.
pub fn captures_from<H>()
    ensures { CapturesFrom H }
{}

/// What was recorded stays at the beginning of what is.
pub fn play_grows<H>()
    ensures { PlayGrows H }
{}

/// What is recorded of a trace, and how that ends, is the cut of the trace at the limits.
pub fn play_is_cut<H>()
    ensures { PlayIsCut H }
{}

/// An evaluation under limits is the cut of its ticks and its end; of two in turn, the second goes
/// on from what the first left.
pub fn limited_laws<H, A, B>()
    ensures { LimitedLaws H A B }
{}

/// A trace without a need ends in none.
pub fn need_comes_from_need<H>()
    ensures { NeedComesFromNeed H }
{}

/// A fold under limits goes item by item, and over two lists in turn.
pub fn fold_laws<H, A, B>()
    ensures { FoldLaws H A B }
{}

/// What was recorded of a trace from the start on, and how that ended, is the cut of the trace at
/// the limits.
pub fn reported_is_cut<H>()
    ensures { ReportedIsCut H }
{}

/// Packed items with the same marks are the same: ticks side by side at one place are one run, and
/// no run is empty.
pub fn packed_once<H>()
    ensures { PackedOnce H }
{}

/// Holes are filled part by part.
pub fn fill_laws<H, K>()
    ensures { FillLaws H K }
{}

/// What passed a cut of a trace with holes, and its end, give the cut at all limits that are no
/// higher, whatever fills the holes and whatever follows.
pub fn cut_serves<H, K>()
    ensures { CutServes H K }
{}

/// What is recorded of two traces is the same where their cuts are.
pub fn cuts_report_same<H>()
    ensures { CutsTellSame H }
{}

/// Holes are numbered before or after the cut.
pub fn numbered_laws<H>()
    ensures { NumberedLaws H }
{}
