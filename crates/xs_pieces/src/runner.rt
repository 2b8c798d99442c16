//! What runs pieces.

ghost use Rattle.std.specs.Prelude.{◌≡◌, ◌+◌, ◌≤◌, ℕ, List, IfOk, OnErr};
ghost use Rattle.xs_pieces.specs.Ready.{IsReady};
ghost use Rattle.xs_record.specs.Outcome.{IsOutcome, part_blocks};
ghost use Rattle.xs_record.specs.Piece.{IsPiece};
ghost use Rattle.xs_trace.specs.Mark.{Trace};

use crate::piece::{Desk, Ran};
use std::alloc::{AllocError, Global};
use xs_block::pool::Pool;
use xs_core::place::Place;
use xs_record::outcome::Outcome;
use xs_record::segment::Segment;
use xs_trace::item::Limits;
use xs_trace::total::Total;

/// A tree of pieces, and what runs a task with all that is below it.
pub trait Runner {
    /// What a piece is to do.
    type Task: Drop;

    /// Which tasks are its own.
    ghost is_own: { Self → Self.Task → Type 0 };

    /// Where in the tree the piece of a task is.
    ghost place_of: { Self → Self.Task → List ℕ };

    /// What a task does itself, with a hole for each task that it leaves.
    ghost own: { Self → Self.Task → Trace Self.Task };

    /// What a task does, with all that it leaves.
    ghost whole: { Self → Self.Task → Trace Self.Task };

    /// Where in the tree the piece of a task is.
    fn place<'t>(&self, task: &'t Self::Task) -> &'t Place
        ensures place { result.now ≡ place_of self.now task.now };

    /// All that a task does, with what it leaves to others, cut at the limits. The blocks come from
    /// the pool.
    fn run_whole(
        &self,
        alloc: Global,
        task: &Self::Task,
        limits: Limits,
        pool: &mut Pool<Segment>,
    ) -> Result<Outcome, AllocError>
        requires ready { IsReady (is_own self.now) (place_of self.now) (own self.now)
            (whole self.now) }
        requires task { is_own self.now task.now }
        ensures outcome { IfOk result (IsOutcome (whole self.now task.now) limits) }
        ensures blocks { IfOk result (λ o. pool.old ≤ part_blocks o.parts.items + pool.new) }
        ensures free { OnErr result (pool.old ≤ pool.new) };
}

/// Runs single pieces of a tree, whose ticks go into a total of which `T` is a share.
pub trait PieceRunner<T: Total + Drop>: Runner {
    /// What a task does itself, cut at the limits, with a hole for each task that it leaves; these
    /// are appended to the children, in order. Its ticks are added to the total.
    fn run(
        &self,
        alloc: Global,
        task: &Self::Task,
        limits: Limits,
        desk: Desk<T>,
        children: &mut Vec<Self::Task>,
    ) -> Ran<T>
        requires ready { IsReady (Self.is_own self.now) (Self.place_of self.now)
            (Self.own self.now) (Self.whole self.now) }
        requires task { Self.is_own self.now task.now }
        requires open { T.last desk.share ≤ T.most desk.share }
        ensures piece { IfOk result.outcome (IsPiece (Self.own self.now task.now) limits
            (T.most desk.share) (T.added desk.share) (T.added result.desk.share)
            (T.last result.desk.share) children.old.items children.new.items) }
        ensures refused { OnErr result.outcome (children.new.items ≡ children.old.items) }
        ensures kept { T.kept result.desk.share ≡ T.kept desk.share }
        ensures most { T.most result.desk.share ≡ T.most desk.share }
        ensures blocks { IfOk result.outcome (λ o.
            desk.pool ≤ part_blocks o.parts.items + result.desk.pool) }
        ensures free { OnErr result.outcome (desk.pool ≤ result.desk.pool) };
}
