//! Runs of a stylesheet: a piece with holes, and a whole run.

ghost use Rattle.std.specs.List.{All};
ghost use Rattle.std.specs.Prelude.{◌≡◌, ◌+◌, ◌≤◌, ℕ, true, IfOk, IsSome, None, OnErr};
ghost use Rattle.std.specs.Prelude.{OnOk};
ghost use Rattle.xs_block.specs.Chain.{most_blocks};
ghost use Rattle.xs_body.specs.Inside.{IsTaskIn, IsWorld};
ghost use Rattle.xs_body.specs.Results.{IsWholeRun};
ghost use Rattle.xs_body_spec.specs.Trace.{root_task, task_trace};
ghost use Rattle.xs_body_spec.specs.World.{with_grain};
ghost use Rattle.xs_record.specs.Outcome.{IsOutcome, is_done, part_blocks};
ghost use Rattle.xs_record.specs.Piece.{IsPiece};
ghost use Rattle.xs_trace.specs.Cut.{cut};
ghost use Rattle.xs_trace.specs.Play.{IsStep, play};

use crate::evaluator::Evaluator;
use crate::passed::Passed;
use crate::task::{Job, Task};
use crate::tasks::locals_of;
use crate::world::World;
use std::alloc::{AllocError, Global};
use std::marker::Model;
use std::mem::replace;
use xs_attribute_sets::index::SetIndex;
use xs_block::pool::Pool;
use xs_body_spec::finder::Finder;
use xs_body_spec::focus::Focus;
use xs_record::outcome::{Outcome, free_parts};
use xs_record::piece::{Finished, PieceRecorder};
use xs_record::segment::Segment;
use xs_sheet::sheet::Sheet;
use xs_trace::item::{Limits, Site};
use xs_trace::recorder::{Halt, Recorder};
use xs_trace::total::{LocalTotal, Total};
use xs_tree::{Node, Tree};
use xs_value::value::Value;

/// The most levels of templates.
pub const MOST_DEPTH: u32 = 16384;

/// The most ticks of a run with a total of its own: 2^40.
const MOST_TICKS: u64 = 1_099_511_627_776;

/// Runs a stylesheet. Contracts see it as what it runs over.
#[derive(Drop)]
pub struct SheetRunner<'a, K: Finder> {
    pub(crate) world: World<'a, K>,
}

impl<'a, K: Finder> Model for SheetRunner<'a, K> {
    ghost use Rattle.std.specs.Coded.{codes};
    ghost use denote.Signature.{static_lft};
    ghost use Rattle.xs_attribute_sets.specs.contracts.index.SetIndex as of_index;
    ghost use Rattle.xs_sheet.specs.contracts.sheet.Sheet as of_sheet;
    ghost use Rattle.xs_body_spec.specs.World.{World};

    ghost Value = { World };

    ghost coded = { Prim.hlevel (
      codes,
      of_sheet.the_row.coded,
      (of_index.the_row static_lft).coded,
    ) };

    ghost view = { λ r. r.world };
}

impl<'a, K: Finder> SheetRunner<'a, K> {
    /// A runner over these. Where there is a grain, `run` leaves runs over more nodes than that to
    /// tasks.
    pub fn new(
        sheet: &'a Sheet,
        index: &'a SetIndex<'a>,
        tree: &'a Tree,
        finder: &'a K,
        globals: &'a [Option<Value>],
        grain: Option<u32>,
    ) -> SheetRunner<'a, K>
        requires world { IsWorld (record {
          sheet = sheet.now;
          index = index.now;
          tree = tree.now;
          keys = K.tables finder.now;
          globals = globals.now;
          grain = grain;
        }) }
        requires sheet { K.sheet finder.now ≡ sheet.now }
        requires tree { K.tree finder.now ≡ tree.now }
        requires ready { K.is_ready finder.now }
        ensures { result ≡ record {
          sheet = sheet.now;
          index = index.now;
          tree = tree.now;
          keys = K.tables finder.now;
          globals = globals.now;
          grain = grain;
        } }
    {
        SheetRunner {
            world: World {
                sheet,
                index,
                tree,
                finder,
                globals,
                grain,
            },
        }
    }

    /// What a transformation begins with (XSLT 1.0, 5.1).
    #[tactic(auto, unfolding(xs_body_spec::specs::Trace::most_depth))]
    pub fn root_task(&self, alloc: Global) -> Result<Task<'a>, AllocError>
        ensures task { IfOk result (λ task. task ≡ root_task self.now) }
        ensures inside { IfOk result (IsTaskIn self.now.tree) }
    {
        let world = &self.world;
        let has_root = world.tree.len() > 0;
        prove!(has_root);
        let line = world.sheet.root_line;
        let set_levels = world.sheet.sets.as_slice().len();
        Ok(Task {
            job: Job::Rules(0, Passed::none()),
            site: Site { module: 0, line },
            focus: Focus::alone_at(Node::root(), MOST_DEPTH, set_levels),
            first: 1,
            nodes: Vec::from_slice(alloc, &[Node::root()])?,
        })
    }

    /// What a task does itself, cut at the limits, with a hole for each task that it leaves; these
    /// are appended to the children. Its ticks are added to a total. The share in the total and the
    /// pool come back whatever the answer.
    pub fn run<T: Total + Drop + 'a>(
        &self,
        alloc: Global,
        task: &Task<'a>,
        limits: Limits,
        total: T,
        pool: Pool<Segment>,
        children: &mut Vec<Task<'a>>,
    ) -> Finished<T>
        requires settled { All IsSome self.now.globals }
        requires task { IsTaskIn self.now.tree task.now }
        ensures piece { IfOk result.outcome (IsPiece (task_trace self.now task.now) limits
            (T.most total) (T.added total) (T.added result.total) (T.last result.total)
            children.old.items children.new.items) }
        ensures refused { OnErr result.outcome (children.new.items ≡ children.old.items) }
        ensures kept { T.kept result.total ≡ T.kept total }
        ensures most { T.most result.total ≡ T.most total }
        ensures blocks { IfOk result.outcome (λ o.
            pool ≤ part_blocks o.parts.items + result.pool) }
        ensures free { OnErr result.outcome (pool ≤ result.pool) }
    {
        let mut recorder: PieceRecorder<T, Task<'a>> = PieceRecorder::new(
            alloc, limits, total, pool,
        );
        let reported = report_task(alloc, &self.world, task, &mut recorder);
        recorder.finish(reported, children)
    }

    /// All that a task does, cut at the limits, with what it would leave to others: its ticks,
    /// events and messages in one part, how it ended, and the number of its ticks. The blocks come
    /// from the pool. A run of more than 2^40 ticks is out of memory.
    pub fn run_whole(
        &self,
        alloc: Global,
        task: &Task<'a>,
        limits: Limits,
        pool: &mut Pool<Segment>,
    ) -> Result<Outcome, AllocError>
        requires settled { All IsSome self.now.globals }
        requires task { IsTaskIn self.now.tree task.now }
        ensures outcome { IfOk result
            (IsOutcome (task_trace (with_grain None self.now) task.now) limits) }
        ensures whole { IfOk result (IsWholeRun
            (cut (task_trace (with_grain None self.now) task.now) limits.ticks limits.events)) }
        ensures blocks { IfOk result (λ o.
            pool.old ≤ part_blocks o.parts.items + pool.new) }
        ensures free { OnErr result (pool.old ≤ pool.new) }
    {
        let runner = without_grain(&self.world);
        let _free = pool.free_blocks();
        let blocks = replace(pool, Pool::new(alloc));
        let total = LocalTotal::new(MOST_TICKS, 0);
        let mut children: Vec<Task<'a>> = Vec::new(alloc);
        let finished = runner.run(alloc, task, limits, total, blocks, &mut children);
        *pool = finished.pool;
        unless_over(finished.outcome?, pool)
    }
}

/// A runner over the same that leaves nothing to tasks.
fn without_grain<'a, K: Finder>(world: &World<'a, K>) -> SheetRunner<'a, K>
    ensures { result ≡ with_grain None world.now }
{
    SheetRunner::new(
        world.sheet,
        world.index,
        world.tree,
        world.finder,
        world.globals,
        None,
    )
}

/// An outcome that did not end in the total of its run. One that did is out of memory, and its
/// blocks are free.
fn unless_over(outcome: Outcome, pool: &mut Pool<Segment>) -> Result<Outcome, AllocError>
    ensures same { IfOk result (λ o. o ≡ outcome) }
    ensures within { OnOk result (is_done outcome.ended ≡ true) }
    ensures kept { OnOk result (pool.new ≡ pool.old) }
    ensures free { OnErr result ((n : ℕ) → n ≤ most_blocks →
        n ≤ part_blocks outcome.parts.items + pool.old → n ≤ pool.new) }
{
    if !outcome.is_done() {
        free_parts(pool, outcome.parts);
        return Err(AllocError);
    }
    Ok(outcome)
}

/// Reports a recorder what a task does.
pub fn report_task<'a, K: Finder, R: Recorder<Task = Task<'a>>>(
    alloc: Global,
    world: &World<'a, K>,
    task: &Task<'a>,
    recorder: &mut R,
) -> Result<(), Halt>
    requires holes { IsSome world.now.grain → R.takes_holes ≡ true }
    requires task { IsTaskIn world.now.tree task.now }
    ensures reported { IsStep (play (task_trace world.now task.now) (R.state recorder.old))
        result (R.state recorder.new) }
    ensures kept { R.kept recorder.new ≡ R.kept recorder.old }
{
    let locals = locals_of(alloc, task)?;
    let mut evaluator = Evaluator::new(alloc, world, locals);
    evaluator.begin_task(task)?;
    evaluator.finish(recorder)
}
