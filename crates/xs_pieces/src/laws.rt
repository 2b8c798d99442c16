//! What is true of trees of pieces. The functions do nothing: their contracts are the laws.

ghost use Rattle.xs_pieces.specs.Laws.{TreeLaws, WholeIsComplete};

/// The trace of a tree is that of its root's task, with each hole filled by the trace of the tree
/// below it, and nothing else is.
pub fn tree_laws<H, K>()
    ensures { TreeLaws H K }
{}

/// Where a whole run is within its limits, its collection has each place of the tree, all pieces
/// are finished, and their total is all ticks.
pub fn whole_is_complete<H>()
    ensures { WholeIsComplete H }
{}
