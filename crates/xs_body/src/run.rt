//! The loop over what is still to be done.

ghost use Rattle.std.specs.Prelude.{◌≡◌, ◌<◌, ◌∷◌, length, true, IsSome, OnOk};
ghost use Rattle.xs_body.specs.Inside.{IsInside};
ghost use Rattle.xs_body.specs.steps.Frames.{advanced, end_works, instrs_of, pushed, rest_begun};
ghost use Rattle.xs_body.specs.steps.Frames.{rest_works, stack_reported, work_of};
ghost use Rattle.xs_trace.specs.Play.{IsStep, IsStepBy};

use crate::evaluator::Evaluator;
use crate::frames::{Frame, Scope};
use crate::task::Task;
use std::alloc::AllocError;
use xs_body_spec::finder::Finder;
use xs_sheet::body::{Body, Instr};
use xs_trace::event::Event;
use xs_trace::recorder::{Halt, Recorder};

impl<'a, K: Finder> Evaluator<'a, K> {
    /// Goes on to the end.
    pub(crate) fn finish<R: Recorder<Task = Task<'a>>>(
        &mut self,
        recorder: &mut R,
    ) -> Result<(), Halt>
        requires holes { IsSome self.old.world.grain → R.takes_holes ≡ true }
        ensures reported { IsStep (stack_reported self.old (R.state recorder.old))
            result (R.state recorder.new) }
        ensures kept { R.kept recorder.new ≡ R.kept recorder.old }
    {
        for _turn in 0..u64::MAX {
            match self.pop() {
                None => return Ok(()),
                Some(frame) => self.advance(frame, recorder)?,
            }
        }
        Err(Halt::NoMemory)
    }

    /// The next step of what is to be done first.
    #[inline(always)]
    fn advance<R: Recorder<Task = Task<'a>>>(
        &mut self,
        frame: Frame<'a>,
        recorder: &mut R,
    ) -> Result<(), Halt>
        requires holes { IsSome self.old.world.grain → R.takes_holes ≡ true }
        requires first { IsInside self.old.world.tree frame }
        ensures reported { IsStepBy (λ u. self.new)
            (advanced (work_of frame.entry) self.old
            (R.state recorder.old)) result (R.state recorder.new) }
        ensures kept { R.kept recorder.new ≡ R.kept recorder.old }
    {
        match frame {
            Frame::Rest(instrs, scope) => self.go_on(instrs, scope, recorder),
            Frame::Fill => self.fill_slot(recorder),
            Frame::Each(left) => self.do_next(left, recorder),
            Frame::Apply(left) => self.apply_next(left, recorder),
            Frame::Bodies(bodies, scope) => {
                self.begin_next_body(bodies, scope)?;
                Ok(())
            }
            Frame::End => recorder.put(Event::End),
            Frame::Sets(names, focus) => {
                self.next_set(names, focus)?;
                Ok(())
            }
            Frame::Declared(name, next, focus) => {
                self.next_declaration(name, next, focus)?;
                Ok(())
            }
            Frame::Attributes(left) => self.put_attributes(left, recorder),
            Frame::Make(made, site) => self.end_made(made, site, recorder),
            Frame::Say { site, terminate } => self.end_message(site, terminate, recorder),
            Frame::Pass(passing) => self.pass_next(passing, recorder),
            Frame::Take(passing) => self.take_value(passing, recorder),
            Frame::Params(left) => self.next_param(left, recorder),
        }
    }

    /// A body begins at once, by its first instruction.
    #[inline(always)]
    pub(crate) fn begin_body<R: Recorder<Task = Task<'a>>>(
        &mut self,
        body: &'a Body,
        scope: Scope,
        recorder: &mut R,
    ) -> Result<(), Halt>
        requires holes { IsSome self.old.world.grain → R.takes_holes ≡ true }
        requires node { scope.focus.node < length self.old.world.tree }
        ensures reported { IsStepBy (λ u. self.new)
            (rest_begun (instrs_of body.now) scope self.old
            (R.state recorder.old)) result (R.state recorder.new) }
        ensures kept { R.kept recorder.new ≡ R.kept recorder.old }
    {
        self.go_on(body.instrs.as_slice(), scope, recorder)
    }

    /// The next instruction of a body, or its end.
    #[inline(always)]
    fn go_on<R: Recorder<Task = Task<'a>>>(
        &mut self,
        instrs: &'a [Instr],
        scope: Scope,
        recorder: &mut R,
    ) -> Result<(), Halt>
        requires holes { IsSome self.old.world.grain → R.takes_holes ≡ true }
        requires node { scope.focus.node < length self.old.world.tree }
        ensures reported { IsStepBy (λ u. self.new)
            (rest_begun instrs.now scope self.old
            (R.state recorder.old)) result (R.state recorder.new) }
        ensures kept { R.kept recorder.new ≡ R.kept recorder.old }
    {
        match instrs.split_first() {
            None => {
                self.empty(scope.own);
                Ok(())
            }
            Some((instr, behind)) => self.begin_next(instr, behind, scope, recorder),
        }
    }

    /// An instruction of a body begins, before what is left of the body.
    #[inline(always)]
    fn begin_next<R: Recorder<Task = Task<'a>>>(
        &mut self,
        instr: &'a Instr,
        behind: &'a [Instr],
        scope: Scope,
        recorder: &mut R,
    ) -> Result<(), Halt>
        requires holes { IsSome self.old.world.grain → R.takes_holes ≡ true }
        requires node { scope.focus.node < length self.old.world.tree }
        ensures reported { IsStepBy (λ u. self.new)
            (rest_begun (instr.now ∷ behind.now) scope self.old
            (R.state recorder.old)) result (R.state recorder.new) }
        ensures kept { R.kept recorder.new ≡ R.kept recorder.old }
    {
        recorder.tick(instr.site)?;
        self.push_rest(behind, scope.after(&instr.kind)?)?;
        self.begin(&instr.kind, instr.site, scope, recorder)
    }

    /// Puts what is left of a body before the others, if anything is.
    #[inline(always)]
    pub(crate) fn push_rest(&mut self, instrs: &'a [Instr], scope: Scope) -> Result<(), AllocError>
        requires node { scope.focus.node < length self.old.world.tree }
        ensures pushed { OnOk result
            (self.new ≡ pushed (rest_works instrs.now scope) self.old) }
    {
        if instrs.is_empty() {
            self.push_end(scope)
        } else {
            self.push(Frame::Rest(instrs, scope))
        }
    }

    /// The end of a body, if it takes values away.
    #[inline(always)]
    fn push_end(&mut self, scope: Scope) -> Result<(), AllocError>
        requires node { scope.focus.node < length self.old.world.tree }
        ensures pushed { OnOk result (self.new ≡ pushed (end_works scope) self.old) }
    {
        if scope.own == 0 {
            return Ok(());
        }
        self.push(Frame::Rest(&[], scope))
    }
}
