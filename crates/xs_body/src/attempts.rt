//! Attempts at the globals of a stylesheet (XSLT 1.0, 11.4).

ghost use Rattle.std.specs.Prelude.{◌≡◌, ◌<◌, ◌++◌, [], ◌∷◌, length, slice_get};
ghost use Rattle.std.specs.Prelude.{true, IfOk, IsSome, None, OnOk};
ghost use Rattle.xs_body_spec.specs.Globals.{attempt_cut, attempt_value, global_focus};
ghost use Rattle.xs_body.specs.Inside.{IsAttemptIn};
ghost use Rattle.xs_body.specs.Results.{IsAttempt};
ghost use Rattle.xs_body_spec.specs.Tasks.{Task};
ghost use Rattle.xs_body_spec.specs.World.{value_run};
ghost use Rattle.xs_body.specs.steps.Attempts.{attempt_steps, binding_steps, fragment_steps};
ghost use Rattle.xs_body.specs.steps.Attempts.{IsAttemptOf};
ghost use Rattle.xs_body.specs.steps.Frames.{idle, instrs_of, outer, pushed, rest};
ghost use Rattle.xs_body.specs.declared.attempts.Attempt.TheVariants.{Stopped};
ghost use Rattle.xs_trace.specs.Kept.{item_marks, marks_of, spot};
ghost use Rattle.xs_trace.specs.Mark.{messages_of};
ghost use Rattle.xs_trace.specs.Play.{IsStep};
ghost use Rattle.xs_trace.specs.Run.{limited};
ghost use Rattle.xs_value.specs.Conversion.{IsIn};

use crate::bindings::fragment_value;
use crate::evaluator::Evaluator;
use crate::frames::Scope;
use crate::runner::{MOST_DEPTH, SheetRunner};
use crate::task::Task;
use crate::world::World;
use std::alloc::{AllocError, Global};
use xs_body_spec::finder::Finder;
use xs_body_spec::focus::Focus;
use xs_record::brief::Brief;
use xs_sheet::body::{Binding, Body, Content};
use xs_sheet::scoped::ScopedExpr;
use xs_text::TextBuf;
use xs_trace::fault::Fault;
use xs_trace::item::{Item, Limits, Site, Spot};
use xs_trace::recorder::{Halt, Recorder};
use xs_tree::Node;
use xs_value::value::Value;

/// What an attempt at a global comes to.
#[derive(Drop)]
pub enum Attempt {
    /// Its value.
    Done {
        value: Value,
        says: Vec<TextBuf>,
        ticks: u64,
    },
    /// It ended in a fault, or was cut.
    Stopped {
        says: Vec<TextBuf>,
        ticks: u64,
        spot: Spot,
    },
    /// It needs another global first.
    Needs {
        global: u32,
        site: Site,
        says: Vec<TextBuf>,
        ticks: u64,
    },
}

impl<'a, K: Finder> SheetRunner<'a, K> {
    /// What the content of a global does, cut at a number of ticks.
    pub fn attempt(&self, alloc: Global, global: u32, limit: u64) -> Result<Attempt, AllocError>
        requires whole { self.now.grain ≡ None }
        ensures attempt { IfOk result (IsAttempt (attempt_cut self.now global limit)
            (attempt_value self.now (slice_get self.now.sheet.globals global))) }
        ensures inside { IfOk result (IsAttemptIn self.now.tree) }
    {
        let limits = Limits {
            ticks: limit,
            events: None,
        };
        let mut brief: Brief<Task<'a>> = Brief::new(alloc, limits);
        let reported = report_global(alloc, &self.world, global, &mut brief);
        let ticks = limit.saturating_sub(brief.left());
        let items = brief.finish();
        let says = says_of(alloc, &items)?;
        attempt_of(reported, says, ticks)
    }
}

/// How an attempt ended.
fn attempt_of(
    reported: Result<Value, Halt>,
    says: Vec<TextBuf>,
    ticks: u64,
) -> Result<Attempt, AllocError>
    ensures { IfOk result (IsAttemptOf reported says.items ticks) }
{
    match reported {
        Ok(value) => Ok(Attempt::Done { value, says, ticks }),
        Err(Halt::Fault(fault, site)) => Ok(stopped(fault, site, says, ticks)),
        Err(Halt::Spent(site)) => Ok(stopped(Fault::Budget, site, says, ticks)),
        Err(Halt::Needs(global, site)) => Ok(Attempt::Needs {
            global,
            site,
            says,
            ticks,
        }),
        Err(Halt::Full(_)) | Err(Halt::Over { .. }) | Err(Halt::NoMemory) => Err(AllocError),
    }
}

/// An attempt that ended in a fault at an instruction.
fn stopped(fault: Fault, site: Site, says: Vec<TextBuf>, ticks: u64) -> Attempt
    ensures { result ≡ Stopped says ticks (spot fault site) }
{
    let spot = Spot {
        fault,
        module: site.module,
        line: site.line,
    };
    Attempt::Stopped { says, ticks, spot }
}

/// The messages among some items, in order.
fn says_of(alloc: Global, items: &[Item]) -> Result<Vec<TextBuf>, AllocError>
    ensures { IfOk result (λ says. says.items ≡ messages_of {H = Task} (marks_of items.now)) }
{
    let mut says = Vec::new(alloc);
    let mut left = items;
    while let Some((item, others)) = left.split_first() {
        push_said(&mut says, item)?;
        left = others;
    }
    Ok(says)
}

/// What an item says, behind what was said.
fn push_said(says: &mut Vec<TextBuf>, item: &Item) -> Result<(), AllocError>
    ensures { OnOk result
        (says.new.items ≡ says.old.items ++ messages_of {H = Task} (item_marks item.now)) }
{
    match item {
        Item::Run { .. } => Ok(()),
        Item::Put(_) => Ok(()),
        Item::Say(text) => {
            says.push(text.copy()?)?;
            Ok(())
        }
    }
}

/// Reports a recorder what the content of a global does, and gives its value.
fn report_global<'a, K: Finder, R: Recorder<Task = Task<'a>>>(
    alloc: Global,
    world: &World<'a, K>,
    global: u32,
    recorder: &mut R,
) -> Result<Value, Halt>
    requires holes { IsSome world.now.grain → R.takes_holes ≡ true }
    ensures reported { IsStep (attempt_steps world.now
        (slice_get world.now.sheet.globals global) (R.state recorder.old))
        result (R.state recorder.new) }
    ensures kept { R.kept recorder.new ≡ R.kept recorder.old }
    ensures inside { IfOk result (IsIn world.now.tree) }
{
    let sheet = world.sheet;
    let Some(declared) = sheet.globals.as_slice().get(global as usize) else {
        return Ok(Value::Chars(TextBuf::of(alloc, "")?));
    };
    report_binding(alloc, world, &declared.binding, recorder)
}

/// The same of its binding.
fn report_binding<'a, K: Finder, R: Recorder<Task = Task<'a>>>(
    alloc: Global,
    world: &World<'a, K>,
    binding: &'a Binding,
    recorder: &mut R,
) -> Result<Value, Halt>
    requires holes { IsSome world.now.grain → R.takes_holes ≡ true }
    ensures reported { IsStep (binding_steps world.now binding.now (R.state recorder.old))
        result (R.state recorder.new) }
    ensures kept { R.kept recorder.new ≡ R.kept recorder.old }
    ensures inside { IfOk result (IsIn world.now.tree) }
{
    match &binding.content {
        Content::Empty => Ok(Value::Chars(TextBuf::of(alloc, "")?)),
        Content::Select(expr) => report_selected(alloc, world, expr, binding.site, recorder),
        Content::Body(body) => report_content(alloc, world, body, recorder),
    }
}

/// The focus of a global's content.
#[tactic(auto, unfolding(xs_body_spec::specs::Trace::most_depth))]
fn global_focus<'a, K: Finder>(world: &World<'a, K>) -> Focus
    ensures { result ≡ global_focus world.now }
{
    let set_levels = world.sheet.sets.as_slice().len();
    Focus::alone_at(Node::root(), MOST_DEPTH, set_levels).in_capture()
}

/// The value of an expression of a global.
fn report_selected<'a, K: Finder, R: Recorder<Task = Task<'a>>>(
    alloc: Global,
    world: &World<'a, K>,
    expr: &ScopedExpr,
    site: Site,
    recorder: &mut R,
) -> Result<Value, Halt>
    ensures reported { IsStep (limited site
        (value_run world.now expr.now (global_focus world.now) [])
        (R.state recorder.old)) result (R.state recorder.new) }
    ensures kept { R.kept recorder.new ≡ R.kept recorder.old }
    ensures inside { IfOk result (IsIn world.now.tree) }
{
    let has_root = world.tree.len() > 0;
    prove!(has_root);
    let evaluator = Evaluator::new(alloc, world, Vec::new(alloc));
    evaluator.value(expr, site, Scope::outer(global_focus(world)), recorder)
}

/// The fragment that the content of a global makes.
fn report_content<'a, K: Finder, R: Recorder<Task = Task<'a>>>(
    alloc: Global,
    world: &World<'a, K>,
    body: &'a Body,
    recorder: &mut R,
) -> Result<Value, Halt>
    requires holes { IsSome world.now.grain → R.takes_holes ≡ true }
    ensures reported { IsStep (fragment_steps world.now body.now (R.state recorder.old))
        result (R.state recorder.new) }
    ensures kept { R.kept recorder.new ≡ R.kept recorder.old }
    ensures inside { IfOk result (IsIn world.now.tree) }
{
    let has_root = world.tree.len() > 0;
    prove!(has_root);
    recorder.open_capture()?;
    let mut evaluator = content_evaluator(alloc, world, body)?;
    evaluator.finish(recorder)?;
    let fragment = recorder.close_capture();
    Ok(fragment_value(alloc, fragment)?)
}

/// The evaluation that the content of a global begins with.
fn content_evaluator<'a, K: Finder>(
    alloc: Global,
    world: &World<'a, K>,
    body: &'a Body,
) -> Result<Evaluator<'a, K>, AllocError>
    requires node { 0 < length world.now.tree }
    ensures begun { IfOk result (λ evaluator. evaluator ≡ pushed
        (rest (instrs_of body.now) (outer (global_focus world.now)) ∷ []) (idle world.now [])) }
{
    let mut evaluator = Evaluator::new(alloc, world, Vec::new(alloc));
    evaluator.push_body(body, Scope::outer(global_focus(world)))?;
    Ok(evaluator)
}
