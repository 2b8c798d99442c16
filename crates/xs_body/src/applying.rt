//! Runs over nodes: bodies for each of them, and rules for each of them (XSLT 1.0, 8 and 5.4).

ghost use Rattle.std.specs.Prelude.{◌≡◌, ◌<◌, ◌+◌, ◌∷◌, [], drop, length, true, IfOk, IsSome};
ghost use Rattle.std.specs.Prelude.{OnOk};
ghost use Rattle.xs_body.specs.Inside.{AreNodes, AreValues, IsApply, IsEach};
ghost use Rattle.xs_body.specs.steps.Frames.{advanced, applied_begun, apply_begun, apply_left};
ghost use Rattle.xs_body.specs.steps.Frames.{apply_work, bindings_of, each_left};
ghost use Rattle.xs_body.specs.steps.Frames.{each_work, last, loop_begun, pushed};
ghost use Rattle.xs_body.specs.steps.Lists.{AreOrdered, nodes_in};
ghost use Rattle.xs_body_spec.specs.World.{nodes_or_children};
ghost use Rattle.xs_trace.specs.Play.{Goes, IsStepBy, and_then, ticked_by};
ghost use Rattle.xs_trace.specs.Run.{limited};
ghost use Rattle.xs_tree.specs.Record.{children};
ghost use Rattle.xs_value.specs.NodeSet.{IsNodeList};

use crate::evaluator::Evaluator;
use crate::frames::{ApplyLeft, Callee, EachLeft, Frame, Rules, Scope};
use crate::lists::{NodeList, children_of};
use crate::task::{Job, Task};
use crate::tasks::{leave, shared_values, task_over};
use std::alloc::AllocError;
use xs_body_spec::finder::Finder;
use xs_body_spec::focus::Focus;
use xs_sheet::body::{Applied, Body, Passed as PassedParams};
use xs_sheet::scoped::ScopedExpr;
use xs_trace::item::Site;
use xs_trace::recorder::{Halt, Recorder};
use xs_tree::Node;

impl<'a, K: Finder> Evaluator<'a, K> {
    /// The nodes to which templates are applied are found, and then come its parameters (5.4).
    pub(crate) fn begin_apply<R: Recorder<Task = Task<'a>>>(
        &mut self,
        applied: &'a Applied,
        passed: &'a PassedParams,
        site: Site,
        scope: Scope,
        recorder: &mut R,
    ) -> Result<(), Halt>
        requires holes { IsSome self.old.world.grain → R.takes_holes ≡ true }
        requires node { scope.focus.node < length self.old.world.tree }
        ensures reported { IsStepBy (λ u. self.new)
            (apply_begun applied.now (bindings_of passed.now) site scope self.old
            (R.state recorder.old)) result (R.state recorder.new) }
        ensures kept { R.kept recorder.new ≡ R.kept recorder.old }
    {
        let nodes = self.applied_nodes(applied, site, scope, recorder)?;
        let callee = Callee::Rules(applied.mode, nodes);
        self.begin_call(passed, callee, site, scope, recorder)
    }

    /// The nodes that an expression gives, or all children, with a tick for each.
    pub(crate) fn nodes_or_children<R: Recorder>(
        &self,
        select: &Option<ScopedExpr>,
        site: Site,
        scope: Scope,
        recorder: &mut R,
    ) -> Result<NodeList, Halt>
        requires node { scope.focus.node < length self.now.world.tree }
        ensures reported { IsStepBy (λ l. nodes_in l) (limited site
            (nodes_or_children self.now.world select.now scope.focus
            (last scope.seen self.now.slots))
            (R.state recorder.old)) result (R.state recorder.new) }
        ensures kept { R.kept recorder.new ≡ R.kept recorder.old }
        ensures inside { IfOk result (λ l. AreNodes self.now.world.tree (nodes_in l)) }
        ensures order { IfOk result AreOrdered }
    {
        match select {
            Some(expr) => Ok(NodeList::Set(self.nodes(expr, site, scope, recorder)?)),
            None => self.all_children(scope.focus, site, recorder),
        }
    }

    /// All children of the current node.
    pub(crate) fn children(&self, focus: Focus) -> Result<Vec<Node>, AllocError>
        requires node { focus.node < length self.now.world.tree }
        ensures children { IfOk result
            (λ found. found.items ≡ children self.now.world.tree focus.node) }
        ensures inside { IfOk result (λ found. AreNodes self.now.world.tree found.items) }
        ensures order { IfOk result (λ found. IsNodeList found.items) }
    {
        children_of(self.alloc, self.tree, Node::at(focus.node))
    }

    /// The same, with a tick for each.
    fn all_children<R: Recorder>(
        &self,
        focus: Focus,
        site: Site,
        recorder: &mut R,
    ) -> Result<NodeList, Halt>
        requires node { focus.node < length self.now.world.tree }
        ensures reported { IsStepBy (λ l. nodes_in l) (and_then
            (ticked_by (length (children self.now.world.tree focus.node)) site
            (R.state recorder.old))
            (λ u m. Goes (children self.now.world.tree focus.node) m))
            result (R.state recorder.new) }
        ensures kept { R.kept recorder.new ≡ R.kept recorder.old }
        ensures inside { IfOk result (λ l. AreNodes self.now.world.tree (nodes_in l)) }
        ensures order { IfOk result AreOrdered }
    {
        let found = self.children(focus)?;
        recorder.ticks(site, found.len() as u64)?;
        Ok(NodeList::List(found))
    }

    /// Rules for nodes begin, or are left to tasks.
    pub(crate) fn apply<R: Recorder<Task = Task<'a>>>(
        &mut self,
        rules: Rules<'a>,
        nodes: NodeList,
        site: Site,
        focus: Focus,
        recorder: &mut R,
    ) -> Result<(), Halt>
        requires holes { IsSome self.old.world.grain → R.takes_holes ≡ true }
        requires nodes { AreNodes self.old.world.tree (nodes_in nodes) }
        requires passed { AreValues self.old.world.tree rules.passed.values }
        ensures reported { IsStepBy (λ u. self.new)
            (applied_begun rules.entry.mode rules.entry.passed site focus (nodes_in nodes) self.old
            (R.state recorder.old)) result (R.state recorder.new) }
        ensures kept { R.kept recorder.new ≡ R.kept recorder.old }
    {
        let size = nodes.count()?;
        let focus = focus.in_list(size);
        if let Some(grain) = self.grain_over(focus, size) {
            let job = Job::Rules(rules.mode, rules.passed);
            let task = task_over(self.alloc, job, site, focus);
            return leave(self.alloc, grain, task, nodes.nodes(), recorder);
        }
        let left = ApplyLeft {
            nodes,
            next: 0,
            position: 1,
            rules,
            site,
            focus,
        };
        self.push_apply(left)?;
        Ok(())
    }

    /// Puts the rules for nodes before the others.
    pub(crate) fn push_apply(&mut self, left: ApplyLeft<'a>) -> Result<(), AllocError>
        requires left { IsApply self.old.world.tree left }
        ensures pushed { OnOk result
            (self.new ≡ pushed (apply_work left.entry ∷ []) self.old) }
    {
        self.push(Frame::Apply(Box::new(self.alloc, left)?))
    }

    /// The rule for the next node begins.
    pub(crate) fn apply_next<R: Recorder<Task = Task<'a>>>(
        &mut self,
        left: Box<ApplyLeft<'a>>,
        recorder: &mut R,
    ) -> Result<(), Halt>
        requires holes { IsSome self.old.world.grain → R.takes_holes ≡ true }
        requires left { IsApply self.old.world.tree left.value }
        ensures reported { IsStepBy (λ u. self.new)
            (advanced (apply_work left.entry.value) self.old
            (R.state recorder.old)) result (R.state recorder.new) }
        ensures kept { R.kept recorder.new ≡ R.kept recorder.old }
    {
        match left.nodes.node_at(left.next) {
            None => Ok(()),
            Some(node) => self.apply_at(node, left, recorder),
        }
    }

    /// The rule for this node begins, before those for the nodes after it.
    fn apply_at<R: Recorder<Task = Task<'a>>>(
        &mut self,
        node: Node,
        left: Box<ApplyLeft<'a>>,
        recorder: &mut R,
    ) -> Result<(), Halt>
        requires holes { IsSome self.old.world.grain → R.takes_holes ≡ true }
        requires left { IsApply self.old.world.tree left.value }
        requires node { node < length self.old.world.tree }
        ensures reported { IsStepBy (λ u. self.new)
            (advanced (apply_left left.entry.value.rules.mode left.entry.value.rules.passed
            left.entry.value.site left.entry.value.focus left.entry.value.position
            (node ∷ drop (left.entry.value.next + 1) (nodes_in left.entry.value.nodes))) self.old
            (R.state recorder.old)) result (R.state recorder.new) }
        ensures kept { R.kept recorder.new ≡ R.kept recorder.old }
    {
        let mut left = left;
        let site = left.site;
        let focus = left.focus.at_node(node, left.position);
        recorder.tick(site)?;
        let rules = left.rules.copy(self.alloc)?;
        left.next = left.next.checked_add(1).ok_or(AllocError)?;
        left.position = left.position.checked_add(1).ok_or(AllocError)?;
        self.push(Frame::Apply(left))?;
        self.enter_fitting(rules, site, focus, recorder)
    }

    /// A body for each of some nodes begins, or is left to tasks (8).
    pub(crate) fn begin_each<R: Recorder<Task = Task<'a>>>(
        &mut self,
        body: &'a Body,
        nodes: NodeList,
        site: Site,
        scope: Scope,
        recorder: &mut R,
    ) -> Result<(), Halt>
        requires holes { IsSome self.old.world.grain → R.takes_holes ≡ true }
        requires nodes { AreNodes self.old.world.tree (nodes_in nodes) }
        ensures reported { IsStepBy (λ u. self.new)
            (loop_begun body.now site scope (nodes_in nodes) self.old
            (R.state recorder.old)) result (R.state recorder.new) }
        ensures kept { R.kept recorder.new ≡ R.kept recorder.old }
    {
        let size = nodes.count()?;
        let focus = scope.focus.without_rule().in_list(size);
        if let Some(grain) = self.grain_over(focus, size) {
            let job = Job::Body(body, shared_values(self.alloc, self.locals(scope))?);
            let task = task_over(self.alloc, job, site, focus);
            return leave(self.alloc, grain, task, nodes.nodes(), recorder);
        }
        let left = EachLeft {
            nodes,
            next: 0,
            position: 1,
            body,
            site,
            scope: scope.over(focus),
        };
        self.push_each(left)?;
        Ok(())
    }

    /// Puts a body for each of some nodes before the others.
    pub(crate) fn push_each(&mut self, left: EachLeft<'a>) -> Result<(), AllocError>
        requires left { IsEach self.old.world.tree left }
        ensures pushed { OnOk result
            (self.new ≡ pushed (each_work left.entry ∷ []) self.old) }
    {
        self.push(Frame::Each(Box::new(self.alloc, left)?))
    }

    /// A body for the next node begins.
    pub(crate) fn do_next<R: Recorder<Task = Task<'a>>>(
        &mut self,
        left: Box<EachLeft<'a>>,
        recorder: &mut R,
    ) -> Result<(), Halt>
        requires holes { IsSome self.old.world.grain → R.takes_holes ≡ true }
        requires left { IsEach self.old.world.tree left.value }
        ensures reported { IsStepBy (λ u. self.new)
            (advanced (each_work left.entry.value) self.old
            (R.state recorder.old)) result (R.state recorder.new) }
        ensures kept { R.kept recorder.new ≡ R.kept recorder.old }
    {
        match left.nodes.node_at(left.next) {
            None => Ok(()),
            Some(node) => self.do_at(node, left, recorder),
        }
    }

    /// A body for this node begins, before those for the nodes after it.
    fn do_at<R: Recorder<Task = Task<'a>>>(
        &mut self,
        node: Node,
        left: Box<EachLeft<'a>>,
        recorder: &mut R,
    ) -> Result<(), Halt>
        requires holes { IsSome self.old.world.grain → R.takes_holes ≡ true }
        requires left { IsEach self.old.world.tree left.value }
        requires node { node < length self.old.world.tree }
        ensures reported { IsStepBy (λ u. self.new)
            (advanced (each_left left.entry.value.body.now left.entry.value.site
            left.entry.value.scope left.entry.value.position
            (node ∷ drop (left.entry.value.next + 1) (nodes_in left.entry.value.nodes))) self.old
            (R.state recorder.old)) result (R.state recorder.new) }
        ensures kept { R.kept recorder.new ≡ R.kept recorder.old }
    {
        let mut left = left;
        let body = left.body;
        let focus = left.scope.focus.at_node(node, left.position);
        let scope = left.scope.over(focus);
        recorder.tick(left.site)?;
        left.next = left.next.checked_add(1).ok_or(AllocError)?;
        left.position = left.position.checked_add(1).ok_or(AllocError)?;
        self.push(Frame::Each(left))?;
        self.begin_body(body, scope, recorder)
    }
}
