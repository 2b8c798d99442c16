//! Runs that are left to tasks, and tasks that begin.

ghost use Rattle.std.specs.Prelude.{◌≡◌, ◌≤◌, ◌++◌, ◌∷◌, [], length, map, true, IfOk, IsSome, OnOk};
ghost use Rattle.std.specs.Arc.{arc_value};
ghost use Rattle.xs_body_spec.specs.Tasks.{grain_over, shared, task_behind};
ghost use Rattle.xs_body.specs.Inside.{AreNodes, AreValues, IsTaskIn};
ghost use Rattle.xs_body.specs.steps.Frames.{apply_left, begun_with, each_left, idle, pushed};
ghost use Rattle.xs_body.specs.steps.Jobs.{job_of, locals_of};
ghost use Rattle.xs_body.specs.steps.Sharing.{filled, share_of, share_step};
ghost use Rattle.xs_trace.specs.Mark.{Hole};
ghost use Rattle.xs_trace.specs.Play.{IsStep, IsStepBy, play};

use crate::evaluator::Evaluator;
use crate::frames::{ApplyLeft, EachLeft, Rules, Scope};
use crate::lists::{NodeList, count_of};
use crate::passed::Passed;
use crate::task::{Job, Task};
use std::alloc::{AllocError, Global};
use std::sync::Arc;
use xs_body_spec::finder::Finder;
use xs_body_spec::focus::Focus;
use xs_sheet::body::Body;
use xs_trace::item::Site;
use xs_trace::recorder::{Halt, Recorder};
use xs_tree::Node;
use xs_value::value::Value;

impl<'a, K: Finder> Evaluator<'a, K> {
    /// The grain, where a run of so many nodes is more than that.
    pub(crate) fn grain_over(&self, focus: Focus, size: u32) -> Option<u32>
        ensures grain { result ≡ grain_over self.now.world focus size }
        ensures some { IsSome result → IsSome self.now.world.grain }
    {
        if focus.is_captured {
            return None;
        }
        match self.grain {
            Some(grain) if size > grain => Some(grain),
            _ => None,
        }
    }

    /// A task begins, before anything else is to be done.
    pub(crate) fn begin_task(&mut self, task: &Task<'a>) -> Result<(), AllocError>
        requires task { IsTaskIn self.old.world.tree task.now }
        requires idle { self.old ≡ idle self.old.world (locals_of task.now.job) }
        ensures { OnOk result (self.new ≡ begun_with self.old.world task.now) }
    {
        match &task.job {
            Job::Body(body, locals) => {
                let locals = locals.as_slice();
                self.begin_loop(*body, locals.len(), task)
            }
            Job::Rules(mode, passed) => self.begin_rules(*mode, passed, task),
        }
    }

    /// A body for each node of a task begins.
    fn begin_loop(&mut self, body: &'a Body, seen: usize, task: &Task<'a>) -> Result<(), AllocError>
        requires nodes { AreNodes self.old.world.tree task.now.nodes }
        ensures { OnOk result (self.new ≡ pushed (each_left body.now task.now.site
            (record { focus = task.now.focus; seen = seen; own = 0 }) task.now.first
            task.now.nodes ∷ []) self.old) }
    {
        let nodes = Vec::from_slice(self.alloc, task.nodes.as_slice())?;
        self.push_each(EachLeft {
            nodes: NodeList::List(nodes),
            next: 0,
            position: task.first,
            body,
            site: task.site,
            scope: Scope {
                focus: task.focus,
                seen,
                own: 0,
            },
        })
    }

    /// The rules for the nodes of a task begin.
    fn begin_rules(
        &mut self,
        mode: u32,
        passed: &Passed<'a>,
        task: &Task<'a>,
    ) -> Result<(), AllocError>
        requires nodes { AreNodes self.old.world.tree task.now.nodes }
        requires passed { AreValues self.old.world.tree passed.now.values }
        ensures { OnOk result (self.new ≡ pushed (apply_left mode passed.now task.now.site
            task.now.focus task.now.first task.now.nodes ∷ []) self.old) }
    {
        let nodes = Vec::from_slice(self.alloc, task.nodes.as_slice())?;
        let passed = passed.copy(self.alloc)?;
        self.push_apply(ApplyLeft {
            nodes: NodeList::List(nodes),
            next: 0,
            position: task.first,
            rules: Rules { mode, passed },
            site: task.site,
            focus: task.focus,
        })
    }
}

/// A task that takes nodes.
#[derive(Drop)]
pub(crate) struct Sharing<'a> {
    /// The task.
    pub(crate) task: Task<'a>,
    /// How many nodes more it may take.
    pub(crate) room: u32,
}

/// A task over no nodes yet.
pub(crate) fn task_over<'a>(alloc: Global, job: Job<'a>, site: Site, focus: Focus) -> Task<'a>
    ensures { result ≡ record {
      job = job_of job.entry;
      site = site;
      focus = focus;
      first = 1;
      nodes = [];
    } }
{
    Task {
        job,
        site,
        focus,
        first: 1,
        nodes: Vec::new(alloc),
    }
}

/// Leaves a run to a task and those after it, each with a grain of its nodes.
pub(crate) fn leave<'a, R: Recorder<Task = Task<'a>>>(
    alloc: Global,
    grain: u32,
    task: Task<'a>,
    nodes: &[Node],
    recorder: &mut R,
) -> Result<(), Halt>
    requires takes { R.takes_holes ≡ true }
    ensures reported { IsStep
        (play (map Hole (shared grain grain task.entry nodes.now)) (R.state recorder.old))
        result (R.state recorder.new) }
    ensures kept { R.kept recorder.new ≡ R.kept recorder.old }
{
    let mut sharing = Sharing { task, room: grain };
    let mut left = nodes;
    while let Some((node, behind)) = left.split_first() {
        let shared = share(alloc, sharing, *node, grain, recorder)?;
        let parts = cut(behind, shared.room);
        sharing = fill(shared, parts.0)?;
        left = parts.1;
    }
    recorder.hole(sharing.task)
}

/// One node more.
fn share<'a, R: Recorder<Task = Task<'a>>>(
    alloc: Global,
    sharing: Sharing<'a>,
    node: Node,
    grain: u32,
    recorder: &mut R,
) -> Result<Sharing<'a>, Halt>
    requires takes { R.takes_holes ≡ true }
    ensures reported { IsStepBy (λ z. share_of z) (share_step grain (share_of sharing.entry) node
        (R.state recorder.old)) result (R.state recorder.new) }
    ensures kept { R.kept recorder.new ≡ R.kept recorder.old }
{
    let Sharing { mut task, room } = sharing;
    if room == 0 {
        let next = behind(alloc, &task, node)?;
        recorder.hole(task)?;
        Ok(Sharing {
            task: next,
            room: grain.saturating_sub(1),
        })
    } else {
        task.nodes.push(node)?;
        Ok(Sharing {
            task,
            room: room - 1,
        })
    }
}

/// Nodes, cut after so many of them.
fn cut(nodes: &[Node], count: u32) -> (&[Node], &[Node])
    ensures joined { nodes.now ≡ result.0.now ++ result.1.now }
    ensures few { length result.0.now ≤ count }
{
    let count = count as usize;
    if nodes.len() <= count {
        return (nodes, &[]);
    }
    nodes.split_at(count)
}

/// A task takes nodes for which it has room.
fn fill<'a>(sharing: Sharing<'a>, nodes: &[Node]) -> Result<Sharing<'a>, AllocError>
    requires room { length nodes.now ≤ sharing.room }
    ensures { IfOk result (λ z. share_of z ≡ filled (share_of sharing.entry) nodes.now) }
{
    let Sharing { mut task, room } = sharing;
    task.nodes.extend_from_slice(nodes)?;
    Ok(Sharing {
        task,
        room: room - nodes.len() as u32,
    })
}

/// The task behind another, with its first node.
fn behind<'a>(alloc: Global, task: &Task<'a>, node: Node) -> Result<Task<'a>, AllocError>
    ensures { IfOk result (λ t. t ≡ task_behind task.now node) }
{
    let count = count_of(task.nodes.as_slice())?;
    let first = task.first.checked_add(count).ok_or(AllocError)?;
    let nodes = Vec::from_slice(alloc, &[node])?;
    let job = copy_job(alloc, &task.job)?;
    Ok(Task {
        job,
        site: task.site,
        focus: task.focus,
        first,
        nodes,
    })
}

/// The same job, in constant time.
fn copy_job<'a>(alloc: Global, job: &Job<'a>) -> Result<Job<'a>, AllocError>
    ensures { IfOk result (λ copy. job_of copy ≡ job_of job.now) }
{
    match job {
        Job::Body(body, locals) => Ok(Job::Body(*body, Arc::try_clone(locals)?)),
        Job::Rules(mode, passed) => Ok(Job::Rules(*mode, passed.copy(alloc)?)),
    }
}

/// The local variables that a task sees.
pub(crate) fn locals_of(alloc: Global, task: &Task<'_>) -> Result<Vec<Value>, AllocError>
    ensures { IfOk result (λ locals. locals.items ≡ locals_of task.now.job) }
{
    match &task.job {
        Job::Body(_, locals) => copied_values(alloc, locals),
        Job::Rules(_, _) => Ok(Vec::new(alloc)),
    }
}

/// Values as one that tasks share.
pub(crate) fn shared_values(alloc: Global, values: &[Value]) -> Result<Arc<Vec<Value>>, AllocError>
    ensures { IfOk result (λ shared. (arc_value shared).items ≡ values.now) }
{
    Ok(Arc::new(alloc, copied_values(alloc, values)?)?)
}

/// Values that are the same, each in constant time.
pub(crate) fn copied_values(alloc: Global, values: &[Value]) -> Result<Vec<Value>, AllocError>
    ensures { IfOk result (λ copies. copies.items ≡ values.now) }
{
    let mut copies = Vec::new(alloc);
    let mut left = values;
    while let Some((value, behind)) = left.split_first() {
        copies.push(value.copy()?)?;
        left = behind;
    }
    Ok(copies)
}
