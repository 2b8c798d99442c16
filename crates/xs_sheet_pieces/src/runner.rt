//! A stylesheet's run as a tree of pieces.

ghost use Rattle.std.specs.List.{All};
ghost use Rattle.std.specs.Prelude.{◌≡◌, ◌+◌, ◌≤◌, [], IfOk, IsSome, OnErr};
ghost use Rattle.xs_lookup.specs.Ready.{IsReady, tables_in};
ghost use Rattle.xs_body_spec.specs.Inside.{IsWorld};
ghost use Rattle.xs_record.specs.Outcome.{IsOutcome, part_blocks};
ghost use Rattle.xs_record.specs.Piece.{IsPiece};
ghost use Rattle.xs_body_spec.specs.Trace.{root_task};
ghost use Rattle.xs_task_laws.specs.Placed.{IsOwn, at_place, own, whole};

use crate::children::adopt;
use crate::placed::PlacedTask;
use std::alloc::{AllocError, Global};
use std::marker::Model;
use xs_attribute_sets::index::SetIndex;
use xs_block::pool::Pool;
use xs_body::runner::SheetRunner;
use xs_core::place::Place;
use xs_lookup::finder::SheetFinder;
use xs_pieces::piece::{Desk, Ran};
use xs_pieces::runner::{PieceRunner, Runner};
use xs_record::outcome::Outcome;
use xs_record::piece::Finished;
use xs_record::segment::Segment;
use xs_sheet::sheet::Sheet;
use xs_trace::item::Limits;
use xs_trace::total::Total;
use xs_tree::Tree;
use xs_value::value::Value;

/// Runs a stylesheet in pieces, once all its globals have values. Contracts see it as what it runs
/// over.
#[derive(Drop)]
pub struct SheetPieces<'a> {
    runner: SheetRunner<'a, SheetFinder<'a>>,
}

impl<'a> Model for SheetPieces<'a> {
    ghost use Rattle.std.specs.Coded.{codes};
    ghost use Rattle.std.specs.List.{All};
    ghost use Rattle.std.specs.Option.{IsSome};
    ghost use denote.Signature.{static_lft};
    ghost use Rattle.xs_attribute_sets.specs.contracts.index.SetIndex as of_index;
    ghost use Rattle.xs_sheet.specs.contracts.sheet.Sheet as of_sheet;
    ghost use Rattle.xs_body_spec.specs.World.{World};

    ghost Value = { World };

    ghost coded = { Prim.hlevel (
      codes,
      of_sheet.the_row.coded,
      (of_index.the_row static_lft).coded,
    ) };

    ghost view = { λ p. p.runner };

    ghost invariant = { λ p. All IsSome p.runner.globals };
}

impl<'a> SheetPieces<'a> {
    /// The pieces of a run over these. A run over more nodes than the grain is left to tasks.
    pub fn new(
        sheet: &'a Sheet,
        index: &'a SetIndex<'a>,
        tree: &'a Tree,
        finder: &'a SheetFinder<'a>,
        globals: &'a [Option<Value>],
        grain: Option<u32>,
    ) -> SheetPieces<'a>
        requires world { IsWorld (record {
          sheet = sheet.now;
          index = index.now;
          tree = tree.now;
          keys = tables_in finder.now;
          globals = globals.now;
          grain = grain;
        }) }
        requires sheet { finder.now.sheet.now ≡ sheet.now }
        requires tree { finder.now.tree.now ≡ tree.now }
        requires ready { IsReady finder.now }
        requires settled { All IsSome globals.now }
        ensures { result ≡ record {
          sheet = sheet.now;
          index = index.now;
          tree = tree.now;
          keys = tables_in finder.now;
          globals = globals.now;
          grain = grain;
        } }
    {
        SheetPieces {
            runner: SheetRunner::new(sheet, index, tree, finder, globals, grain),
        }
    }

    /// The root: what a transformation begins with (XSLT 1.0, 5.1).
    pub fn root_task(&self, alloc: Global) -> Result<PlacedTask<'a>, AllocError>
        ensures task { IfOk result (λ task. task ≡ at_place [] (root_task self.now)) }
        ensures own { IfOk result (IsOwn self.now) }
    {
        let task = self.runner.root_task(alloc)?;
        Ok(PlacedTask {
            place: Place::root(alloc),
            task,
        })
    }
}

impl<'a> Runner for SheetPieces<'a> {
    ghost use Rattle.xs_task_laws.specs.Placed.{IsOwn, own, whole};

    type Task = PlacedTask<'a>;

    ghost is_own = { λ r t. IsOwn r t };

    ghost place_of = { λ r t. t.place };

    ghost own = { λ r t. own r t };

    ghost whole = { λ r t. whole r t };

    /// As the task has it.
    fn place<'t>(&self, task: &'t PlacedTask<'a>) -> &'t Place
        ensures place { result.now ≡ task.now.place }
    {
        &task.place
    }

    /// What the task does without a grain.
    fn run_whole(
        &self,
        alloc: Global,
        task: &PlacedTask<'a>,
        limits: Limits,
        pool: &mut Pool<Segment>,
    ) -> Result<Outcome, AllocError>
        requires task { IsOwn self.now task.now }
        ensures outcome { IfOk result (IsOutcome (whole self.now task.now) limits) }
        ensures blocks { IfOk result (λ o. pool.old ≤ part_blocks o.parts.items + pool.new) }
        ensures free { OnErr result (pool.old ≤ pool.new) }
    {
        self.runner.run_whole(alloc, &task.task, limits, pool)
    }
}

impl<'a, T: Total + Drop + 'a> PieceRunner<T> for SheetPieces<'a> {
    /// What the task does itself; those that it leaves are put at their places.
    fn run(
        &self,
        alloc: Global,
        task: &PlacedTask<'a>,
        limits: Limits,
        desk: Desk<T>,
        children: &mut Vec<PlacedTask<'a>>,
    ) -> Ran<T>
        requires task { IsOwn self.now task.now }
        ensures piece { IfOk result.outcome (IsPiece (own self.now task.now) limits
            (T.most desk.share) (T.added desk.share) (T.added result.desk.share)
            (T.last result.desk.share) children.old.items children.new.items) }
        ensures refused { OnErr result.outcome (children.new.items ≡ children.old.items) }
        ensures kept { T.kept result.desk.share ≡ T.kept desk.share }
        ensures most { T.most result.desk.share ≡ T.most desk.share }
        ensures blocks { IfOk result.outcome (λ o.
            desk.pool ≤ part_blocks o.parts.items + result.desk.pool) }
        ensures free { OnErr result.outcome (desk.pool ≤ result.desk.pool) }
    {
        let Desk { share, pool } = desk;
        let _free = pool.free_blocks();
        let mut tasks = Vec::new(alloc);
        let Finished {
            outcome,
            total,
            pool,
        } = self
            .runner
            .run(alloc, &task.task, limits, share, pool, &mut tasks);
        let mut pool = pool;
        let outcome = adopt(alloc, outcome, &task.place, tasks, children, &mut pool);
        Ran {
            outcome,
            desk: Desk { share: total, pool },
        }
    }
}
