//! What a stylesheet makes of a source, cut at the limits of a job.

ghost use Rattle.std.specs.List.{All};
ghost use Rattle.std.specs.Prelude.{◌≡◌, ◌≤◌, ◌⊎◌, [], ◌∷◌, IfOk, IsSome, None};
ghost use Rattle.xs_body_spec.specs.Globals.{SettlesAll};
ghost use Rattle.xs_body_spec.specs.World.{ground};
ghost use Rattle.xs_globals.specs.Results.{settled_of};
ghost use Rattle.xs_eval_spec.specs.Conditions.{IsInIf};
ghost use Rattle.xs_reply.specs.declared.status.TheConstants.{OK, RUN_FAULT};
ghost use Rattle.xs_reply.specs.Evaluation.{IsEvaluated, IsEvaluatedOn, IsEvaluatedOver};
ghost use Rattle.xs_reply.specs.Inputs.{named_document};
ghost use Rattle.xs_reply.specs.Reply.{IsWholeOrEmpty, IsWithin, Replies, job_data};
ghost use Rattle.xs_making.specs.Laws.{AreWell};
ghost use Rattle.xs_result_laws.specs.Named.{IsNamedSheet, IsNamedWorld};
ghost use Rattle.xs_lookup.specs.Ready.{IsReady, tables_in};
ghost use Rattle.xs_attribute_sets.specs.Indexed.{IsSetIndex};
ghost use Rattle.xs_value.specs.Tables.{TablesIn};
ghost use Rattle.xs_sheet.specs.Sound.{IsSound};

use crate::host::Host;
use std::alloc::AllocError;
use std::thread::Threads;
use xs_assemble::execute::execute;
use xs_attribute_sets::index::SetIndex;
use xs_block::pool::Pool;
use xs_body::world::World;
use xs_globals::settled::Settled;
use xs_globals::settling::settle;
use xs_keys::keys::KeyCells;
use xs_lookup::finder::SheetFinder;
use xs_outside::Gate;
use xs_pool::crew::Crew;
use xs_pool::ear::Deaf;
use xs_reply::executed::executed_reply;
use xs_reply::job::Job;
use xs_reply::reading::strip;
use xs_reply::reply::{Reply, stopped_reply};
use xs_sheet::sheet::Sheet;
use xs_sheet_pieces::runner::SheetPieces;
use xs_trace::item::Limits;
use xs_tree::Tree;

/// What a stylesheet makes of a source. White space is stripped from the source first; then the
/// globals are settled, and then the root of the source takes its template.
pub fn evaluate<R: Threads + Sync, G: Gate>(
    host: &Host<'_, R, G>,
    job: &Job,
    sheet: &Sheet,
    source: Tree,
) -> Result<Reply, AllocError>
    requires sound { IsSound sheet.now }
    requires job { IsWithin job.now }
    ensures answer { IfOk result (Replies job.now.workers (IsNamedSheet sheet.now × AreWell source)
        (IsEvaluatedOver (job_data job.now) sheet.now (named_document [] source ∷ []))) }
    ensures status { IfOk result (λ reply.
        (reply.status ≡ OK) ⊎ (reply.status ≡ RUN_FAULT)) }
    ensures whole_only { IfOk result IsWholeOrEmpty }
{
    xs_result_laws::puts::stripped_are_well();
    let mut tree = source;
    strip(host.alloc, &mut tree, sheet.strips.as_slice())?;
    evaluate_over(host, job, sheet, &tree)
}

/// The same of a source that is stripped: what finds rules, nodes by key and numbers is made first.
fn evaluate_over<R: Threads + Sync, G: Gate>(
    host: &Host<'_, R, G>,
    job: &Job,
    sheet: &Sheet,
    tree: &Tree,
) -> Result<Reply, AllocError>
    requires sound { IsSound sheet.now }
    requires job { IsWithin job.now }
    ensures answer { IfOk result (Replies job.now.workers
        (IsNamedSheet sheet.now × AreWell tree.now)
        (IsEvaluatedOn (job_data job.now) sheet.now tree.now)) }
    ensures status { IfOk result (λ reply.
        (reply.status ≡ OK) ⊎ (reply.status ≡ RUN_FAULT)) }
    ensures whole_only { IfOk result IsWholeOrEmpty }
{
    let keys = KeyCells::new(host.rt, host.alloc, sheet, tree)?;
    let finder = SheetFinder::new(host.alloc, sheet, tree, &keys)?;
    let index = SetIndex::new(host.alloc, sheet.sets.as_slice())?;
    evaluate_by(host, job, sheet, &index, tree, &finder)
}

/// The same by an index and a finder: the globals, and then the root.
fn evaluate_by<R: Threads + Sync, G: Gate>(
    host: &Host<'_, R, G>,
    job: &Job,
    sheet: &Sheet,
    index: &SetIndex<'_>,
    tree: &Tree,
    finder: &SheetFinder<'_>,
) -> Result<Reply, AllocError>
    requires sound { IsSound sheet.now }
    requires job { IsWithin job.now }
    requires sets { IsSetIndex sheet.now.sets index.now }
    requires for_sheet { finder.now.sheet.now ≡ sheet.now }
    requires for_tree { finder.now.tree.now ≡ tree.now }
    requires ready { IsReady finder.now }
    requires tables { TablesIn tree.now (tables_in finder.now) }
    ensures answer { IfOk result (Replies job.now.workers
        (IsNamedSheet sheet.now × AreWell tree.now)
        (IsEvaluated (job_data job.now)
        (ground sheet.now index.now tree.now (tables_in finder.now)))) }
    ensures status { IfOk result (λ reply.
        (reply.status ≡ OK) ⊎ (reply.status ≡ RUN_FAULT)) }
    ensures whole_only { IfOk result IsWholeOrEmpty }
{
    let _count = tree.len();
    let world = World {
        sheet,
        index,
        tree,
        finder,
        globals: &[],
        grain: None,
    };
    let settled = settle(host.alloc, &world, &job.given, job.budget)?;
    match settled.end {
        Some(spot) => stopped_reply(host.alloc, sheet, spot, &settled.says, &[], settled.ticks),
        None => root_reply(host, job, &world, &settled),
    }
}

/// What the root of a source takes, once the globals are settled, cut at what is left of the limits
/// (XSLT 1.0, 5.1). It is run in pieces, by the workers of the job.
fn root_reply<'a, R: Threads + Sync, G: Gate>(
    host: &Host<'_, R, G>,
    job: &Job,
    world: &World<'a, SheetFinder<'a>>,
    settled: &Settled,
) -> Result<Reply, AllocError>
    requires settled { SettlesAll world.now
        (job_data job.now).given job.now.budget (settled_of settled.now) }
    requires whole { world.now.grain ≡ None }
    requires none { settled.now.end ≡ None }
    requires inside { All (IsInIf world.now.tree) settled.now.values.items }
    requires values { All IsSome settled.now.values.items }
    requires within { settled.now.ticks ≤ job.now.budget }
    requires job { IsWithin job.now }
    ensures answer { IfOk result (Replies job.now.workers (IsNamedWorld world.now)
        (IsEvaluated (job_data job.now) world.now)) }
    ensures status { IfOk result (λ reply.
        (reply.status ≡ OK) ⊎ (reply.status ≡ RUN_FAULT)) }
    ensures whole_only { IfOk result IsWholeOrEmpty }
{
    xs_task_laws::laws::sheet_is_ready();
    xs_task_laws::laws::whole_is_run();
    let sheet = world.sheet;
    let runner = SheetPieces::new(
        world.sheet,
        world.index,
        world.tree,
        world.finder,
        &settled.values,
        Some(job.grain),
    );
    let root = runner.root_task(host.alloc)?;
    let limits = Limits {
        ticks: job.budget - settled.ticks,
        events: job.most_events,
    };
    let mut pool = Pool::new(host.alloc);
    let crew = Crew {
        alloc: host.alloc,
        runner: &runner,
        gate: host.gate,
        limits,
        count: job.workers,
    };
    let executed = execute(host.rt, &crew, root, &mut Deaf, &mut pool)?;
    executed_reply(
        host.alloc,
        job,
        sheet,
        &settled.says,
        settled.ticks,
        executed,
    )
}
