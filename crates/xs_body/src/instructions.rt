//! How each instruction begins.

ghost use Rattle.std.specs.Prelude.{◌≡◌, ◌<◌, length, true, IsSome, OnOk, Some};
ghost use Rattle.xs_body.specs.steps.Frames.{begun, bodies_of, fallbacks_begun, imports_begun};
ghost use Rattle.xs_body.specs.steps.Frames.{message_begun, message_ended, next_body};
ghost use Rattle.xs_trace.specs.Play.{IsStep, IsStepBy};

use crate::evaluator::Evaluator;
use crate::frames::{Callee, Frame, Scope};
use crate::putting::events_text;
use crate::task::Task;
use std::alloc::AllocError;
use xs_body_spec::finder::Finder;
use xs_body_spec::focus::Focus;
use xs_body_spec::made::Made;
use xs_sheet::body::{Body, Fallbacks, InstrKind};
use xs_trace::fault::Fault;
use xs_trace::item::Site;
use xs_trace::recorder::{Halt, Recorder, say_message};

impl<'a, K: Finder> Evaluator<'a, K> {
    /// What an instruction does after its own tick, before what is left of its body.
    pub(crate) fn begin<R: Recorder<Task = Task<'a>>>(
        &mut self,
        kind: &'a InstrKind,
        site: Site,
        scope: Scope,
        recorder: &mut R,
    ) -> Result<(), Halt>
        requires holes { IsSome self.old.world.grain → R.takes_holes ≡ true }
        requires node { scope.focus.node < length self.old.world.tree }
        ensures reported { IsStepBy (λ u. self.new)
            (begun kind.now site scope self.old
            (R.state recorder.old)) result (R.state recorder.new) }
        ensures kept { R.kept recorder.new ≡ R.kept recorder.old }
    {
        match kind {
            InstrKind::ApplyTemplates { nodes, passed } => {
                self.begin_apply(nodes, passed, site, scope, recorder)
            }
            InstrKind::CallTemplate { template, passed } => {
                self.begin_call(passed, Callee::Template(*template), site, scope, recorder)
            }
            InstrKind::ApplyImports => self.begin_imports(site, scope.focus, recorder),
            InstrKind::ForEach {
                select,
                sorts,
                body,
            } => {
                let nodes = self.looped_nodes(select, sorts.as_slice(), site, scope, recorder)?;
                self.begin_each(body, nodes, site, scope, recorder)
            }
            InstrKind::ValueOf(select) => self.put_value(select, site, scope, recorder),
            InstrKind::Choose(choice) => self.begin_choice(choice, site, scope, recorder),
            InstrKind::If { test, body } => self.begin_if(test, body, site, scope, recorder),
            InstrKind::Text(text) => self.put_fixed_text(text, site, recorder),
            InstrKind::Message { terminate, body } => {
                self.begin_message(*terminate, body, site, scope, recorder)
            }
            InstrKind::Variable(binding) => self.bind(&binding.content, site, scope, recorder),
            InstrKind::Literal { start, body } => {
                self.begin_literal(start, body, site, scope, recorder)
            }
            InstrKind::Extension(fallbacks) => {
                self.begin_fallbacks(fallbacks, site, scope, recorder)
            }
            InstrKind::CopyOf(select) => self.put_copy(select, site, scope, recorder),
            InstrKind::Copy { sets, body } => {
                self.begin_copy(sets.as_slice(), body, site, scope, recorder)
            }
            InstrKind::Element { name, sets, body } => {
                let name = self.made_name(name, false, site, scope, recorder)?;
                self.begin_element(name, sets.as_slice(), body, scope, recorder)
            }
            InstrKind::Attribute { name, body } => {
                self.begin_attribute(name, body, site, scope, recorder)
            }
            InstrKind::Comment(body) => self.begin_made(Made::Comment, body, site, scope, recorder),
            InstrKind::Pi { name, body } => {
                self.begin_instruction(name, body, site, scope, recorder)
            }
            InstrKind::Number(decl) => self.put_number(decl, site, scope, recorder),
        }
    }

    /// The rule that the current one overrides begins (XSLT 1.0, 5.6).
    fn begin_imports<R: Recorder<Task = Task<'a>>>(
        &mut self,
        site: Site,
        focus: Focus,
        recorder: &mut R,
    ) -> Result<(), Halt>
        requires holes { IsSome self.old.world.grain → R.takes_holes ≡ true }
        requires node { focus.node < length self.old.world.tree }
        ensures reported { IsStepBy (λ u. self.new)
            (imports_begun site focus focus.rule self.old
            (R.state recorder.old)) result (R.state recorder.new) }
        ensures kept { R.kept recorder.new ≡ R.kept recorder.old }
    {
        match focus.rule {
            None => Err(Halt::Fault(Fault::NoRule, site)),
            Some(rule) => self.begin_overridden(rule, site, focus, recorder),
        }
    }

    /// The rule that this one overrides begins.
    fn begin_overridden<R: Recorder<Task = Task<'a>>>(
        &mut self,
        rule: u32,
        site: Site,
        focus: Focus,
        recorder: &mut R,
    ) -> Result<(), Halt>
        requires holes { IsSome self.old.world.grain → R.takes_holes ≡ true }
        requires node { focus.node < length self.old.world.tree }
        ensures reported { IsStepBy (λ u. self.new)
            (imports_begun site focus (Some rule) self.old
            (R.state recorder.old)) result (R.state recorder.new) }
        ensures kept { R.kept recorder.new ≡ R.kept recorder.old }
    {
        recorder.tick(site)?;
        self.enter_overridden(rule, site, focus, recorder)
    }

    /// A message begins (XSLT 1.0, 13).
    fn begin_message<R: Recorder<Task = Task<'a>>>(
        &mut self,
        terminate: bool,
        body: &'a Body,
        site: Site,
        scope: Scope,
        recorder: &mut R,
    ) -> Result<(), Halt>
        requires node { scope.focus.node < length self.old.world.tree }
        ensures reported { IsStepBy (λ u. self.new)
            (message_begun terminate body.now site scope self.old
            (R.state recorder.old)) result (R.state recorder.new) }
        ensures kept { R.kept recorder.new ≡ R.kept recorder.old }
    {
        recorder.open_capture()?;
        self.push(Frame::Say { site, terminate })?;
        self.push_body(body, scope.in_capture())?;
        Ok(())
    }

    /// A message ends (XSLT 1.0, 13).
    pub(crate) fn end_message<R: Recorder<Task = Task<'a>>>(
        &self,
        site: Site,
        terminate: bool,
        recorder: &mut R,
    ) -> Result<(), Halt>
        ensures reported { IsStep (message_ended site terminate (R.state recorder.old))
            result (R.state recorder.new) }
        ensures kept { R.kept recorder.new ≡ R.kept recorder.old }
    {
        let fragment = recorder.close_capture();
        let text = events_text(self.alloc, self.tree, fragment)?;
        say_message(recorder, site, text)?;
        if terminate {
            return Err(Halt::Fault(Fault::Terminated, site));
        }
        Ok(())
    }

    /// An extension element begins, by its fallbacks (XSLT 1.0, 15).
    fn begin_fallbacks<R: Recorder<Task = Task<'a>>>(
        &mut self,
        fallbacks: &'a Fallbacks,
        site: Site,
        scope: Scope,
        recorder: &R,
    ) -> Result<(), Halt>
        requires node { scope.focus.node < length self.old.world.tree }
        ensures reported { IsStepBy (λ u. self.new)
            (fallbacks_begun (bodies_of fallbacks.now) site scope self.old
            (R.state recorder.now)) result (R.state recorder.now) }
    {
        let _recorder = recorder;
        let bodies = fallbacks.bodies.as_slice();
        if bodies.is_empty() {
            return Err(Halt::Fault(Fault::NoExtension, site));
        }
        self.push(Frame::Bodies(bodies, scope.inner()))?;
        Ok(())
    }

    /// The next of some bodies, one after another.
    #[inline(always)]
    pub(crate) fn begin_next_body(
        &mut self,
        bodies: &'a [Body],
        scope: Scope,
    ) -> Result<(), AllocError>
        requires node { scope.focus.node < length self.old.world.tree }
        ensures begun { OnOk result (self.new ≡ next_body bodies.now scope self.old) }
    {
        match bodies.split_first() {
            None => Ok(()),
            Some((body, behind)) => {
                self.push(Frame::Bodies(behind, scope))?;
                self.push_body(body, scope.inner())
            }
        }
    }
}
