//! Parameters that are passed, and what is called with them (XSLT 1.0, 6 and 11.6).

ghost use Rattle.std.specs.Prelude.{◌≡◌, ◌<◌, ◌∷◌, ◌++◌, [], length, true, IsSome};
ghost use Rattle.xs_body.specs.Inside.{AreCallees, AreValues, IsPassing};
ghost use Rattle.xs_body.specs.steps.Frames.{advanced, bindings_of, call_begun, called_of};
ghost use Rattle.xs_body.specs.steps.Frames.{captured_scope, instrs_of, passes_on, passing_on};
ghost use Rattle.xs_body.specs.steps.Frames.{pass_work, passing_begun, pushed, rest};
ghost use Rattle.xs_body.specs.steps.Frames.{take_work};
ghost use Rattle.xs_body_spec.specs.Trace.{by_number};
ghost use Rattle.xs_sheet.specs.declared.body.Content.TheVariants.{Select};
ghost use Rattle.xs_trace.specs.Play.{Goes, IsStepBy};
ghost use Rattle.xs_trace.specs.State.{opened};
ghost use Rattle.xs_value.specs.Conversion.{IsIn};

use crate::bindings::fragment_value;
use crate::evaluator::Evaluator;
use crate::frames::{Callee, Frame, Passing, Rules, Scope};
use crate::passed::Passed;
use crate::task::Task;
use xs_body_spec::finder::Finder;
use xs_body_spec::focus::Focus;
use xs_sheet::body::{Body, Content, Passed as PassedParams};
use xs_sheet::scoped::ScopedExpr;
use xs_text::TextBuf;
use xs_trace::item::Site;
use xs_trace::recorder::{Halt, Recorder};
use xs_value::value::Value;

impl<'a, K: Finder> Evaluator<'a, K> {
    /// A call begins with its parameters.
    #[inline(always)]
    pub(crate) fn begin_call<R: Recorder<Task = Task<'a>>>(
        &mut self,
        passed: &'a PassedParams,
        callee: Callee,
        site: Site,
        scope: Scope,
        recorder: &mut R,
    ) -> Result<(), Halt>
        requires holes { IsSome self.old.world.grain → R.takes_holes ≡ true }
        requires node { scope.focus.node < length self.old.world.tree }
        requires callee { AreCallees self.old.world.tree callee }
        ensures reported { IsStepBy (λ u. self.new)
            (passes_on (bindings_of passed.now) (bindings_of passed.now) []
            (called_of callee) site scope self.old
            (R.state recorder.old)) result (R.state recorder.new) }
        ensures kept { R.kept recorder.new ≡ R.kept recorder.old }
    {
        let params = passed.params.as_slice();
        if params.is_empty() {
            return self.call_with(Passed::none(), callee, site, scope.focus, recorder);
        }
        let passing = Passing {
            left: params,
            all: params,
            values: Vec::new(self.alloc),
            callee,
            site,
            scope,
        };
        self.push(Frame::Pass(Box::new(self.alloc, passing)?))?;
        Ok(())
    }

    /// What is called, once no parameter is left.
    #[inline(always)]
    fn pass_on<R: Recorder<Task = Task<'a>>>(
        &mut self,
        passing: Box<Passing<'a>>,
        recorder: &mut R,
    ) -> Result<(), Halt>
        requires holes { IsSome self.old.world.grain → R.takes_holes ≡ true }
        requires passing { IsPassing self.old.world.tree passing.value }
        ensures reported { IsStepBy (λ u. self.new)
            (passing_on passing.entry.value.values.items passing.entry.value self.old
            (R.state recorder.old)) result (R.state recorder.new) }
        ensures kept { R.kept recorder.new ≡ R.kept recorder.old }
    {
        if passing.left.is_empty() {
            return self.call(Box::into_inner(passing), recorder);
        }
        self.push(Frame::Pass(passing))?;
        Ok(())
    }

    /// The next parameter of a call, or the call.
    pub(crate) fn pass_next<R: Recorder<Task = Task<'a>>>(
        &mut self,
        passing: Box<Passing<'a>>,
        recorder: &mut R,
    ) -> Result<(), Halt>
        requires holes { IsSome self.old.world.grain → R.takes_holes ≡ true }
        requires passing { IsPassing self.old.world.tree passing.value }
        ensures reported { IsStepBy (λ u. self.new)
            (advanced (pass_work passing.entry.value) self.old
            (R.state recorder.old)) result (R.state recorder.new) }
        ensures kept { R.kept recorder.new ≡ R.kept recorder.old }
    {
        let mut passing = passing;
        match passing.left.split_first() {
            None => self.call(Box::into_inner(passing), recorder),
            Some((binding, behind)) => {
                passing.left = behind;
                self.pass(&binding.content, passing, recorder)
            }
        }
    }

    /// One parameter gets its value, or begins its content.
    fn pass<R: Recorder<Task = Task<'a>>>(
        &mut self,
        content: &'a Content,
        passing: Box<Passing<'a>>,
        recorder: &mut R,
    ) -> Result<(), Halt>
        requires holes { IsSome self.old.world.grain → R.takes_holes ≡ true }
        requires passing { IsPassing self.old.world.tree passing.value }
        ensures reported { IsStepBy (λ u. self.new)
            (passing_begun content.now passing.entry.value self.old
            (R.state recorder.old)) result (R.state recorder.new) }
        ensures kept { R.kept recorder.new ≡ R.kept recorder.old }
    {
        match content {
            Content::Empty => {
                let value = Value::Chars(TextBuf::of(self.alloc, "")?);
                self.push_value(value, passing, recorder)
            }
            Content::Select(expr) => self.pass_selected(expr, passing, recorder),
            Content::Body(body) => self.pass_content(body, passing, recorder),
        }
    }

    /// The value of an expression is that of a parameter.
    fn pass_selected<R: Recorder<Task = Task<'a>>>(
        &mut self,
        expr: &ScopedExpr,
        passing: Box<Passing<'a>>,
        recorder: &mut R,
    ) -> Result<(), Halt>
        requires holes { IsSome self.old.world.grain → R.takes_holes ≡ true }
        requires passing { IsPassing self.old.world.tree passing.value }
        ensures reported { IsStepBy (λ u. self.new)
            (passing_begun (Select expr.now) passing.entry.value self.old
            (R.state recorder.old)) result (R.state recorder.new) }
        ensures kept { R.kept recorder.new ≡ R.kept recorder.old }
    {
        let value = self.value(expr, passing.site, passing.scope, recorder)?;
        self.push_value(value, passing, recorder)
    }

    /// The content of a parameter begins.
    fn pass_content<R: Recorder<Task = Task<'a>>>(
        &mut self,
        body: &'a Body,
        passing: Box<Passing<'a>>,
        recorder: &mut R,
    ) -> Result<(), Halt>
        requires passing { IsPassing self.old.world.tree passing.value }
        ensures reported { IsStepBy (λ u. self.new)
            (Goes (pushed (rest (instrs_of body.now) (captured_scope passing.entry.value.scope)
            ∷ take_work passing.entry.value ∷ []) self.old)
            (opened (R.state recorder.old))) result (R.state recorder.new) }
        ensures kept { R.kept recorder.new ≡ R.kept recorder.old }
    {
        let scope = passing.scope;
        recorder.open_capture()?;
        self.push(Frame::Take(passing))?;
        self.push_body(body, scope.in_capture())?;
        Ok(())
    }

    /// A call has the value of one parameter more.
    #[inline(always)]
    fn push_value<R: Recorder<Task = Task<'a>>>(
        &mut self,
        value: Value,
        passing: Box<Passing<'a>>,
        recorder: &mut R,
    ) -> Result<(), Halt>
        requires holes { IsSome self.old.world.grain → R.takes_holes ≡ true }
        requires value { IsIn self.old.world.tree value }
        requires passing { IsPassing self.old.world.tree passing.value }
        ensures reported { IsStepBy (λ u. self.new)
            (passing_on (passing.entry.value.values.items ++ value ∷ [])
            passing.entry.value self.old
            (R.state recorder.old)) result (R.state recorder.new) }
        ensures kept { R.kept recorder.new ≡ R.kept recorder.old }
    {
        let mut passing = passing;
        passing.values.push(value)?;
        self.pass_on(passing, recorder)
    }

    /// The content of a parameter that is passed has ended.
    pub(crate) fn take_value<R: Recorder<Task = Task<'a>>>(
        &mut self,
        passing: Box<Passing<'a>>,
        recorder: &mut R,
    ) -> Result<(), Halt>
        requires holes { IsSome self.old.world.grain → R.takes_holes ≡ true }
        requires passing { IsPassing self.old.world.tree passing.value }
        ensures reported { IsStepBy (λ u. self.new)
            (advanced (take_work passing.entry.value) self.old
            (R.state recorder.old)) result (R.state recorder.new) }
        ensures kept { R.kept recorder.new ≡ R.kept recorder.old }
    {
        let fragment = recorder.close_capture();
        let value = fragment_value(self.alloc, fragment)?;
        self.push_value(value, passing, recorder)
    }

    /// What is called begins, with its parameters.
    fn call<R: Recorder<Task = Task<'a>>>(
        &mut self,
        passing: Passing<'a>,
        recorder: &mut R,
    ) -> Result<(), Halt>
        requires holes { IsSome self.old.world.grain → R.takes_holes ≡ true }
        requires passing { IsPassing self.old.world.tree passing }
        ensures reported { IsStepBy (λ u. self.new)
            (call_begun (called_of passing.entry.callee)
            (record { bindings = passing.entry.all.now; values = passing.entry.values.items })
            passing.entry.site passing.entry.scope.focus self.old
            (R.state recorder.old)) result (R.state recorder.new) }
        ensures kept { R.kept recorder.new ≡ R.kept recorder.old }
    {
        let Passing {
            all,
            values,
            callee,
            site,
            scope,
            ..
        } = passing;
        let passed = Passed::of(all, values);
        self.call_with(passed, callee, site, scope.focus, recorder)
    }

    /// What is called begins, with these parameters.
    #[inline(always)]
    fn call_with<R: Recorder<Task = Task<'a>>>(
        &mut self,
        passed: Passed<'a>,
        callee: Callee,
        site: Site,
        focus: Focus,
        recorder: &mut R,
    ) -> Result<(), Halt>
        requires holes { IsSome self.old.world.grain → R.takes_holes ≡ true }
        requires node { focus.node < length self.old.world.tree }
        requires passed { AreValues self.old.world.tree passed.values }
        requires callee { AreCallees self.old.world.tree callee }
        ensures reported { IsStepBy (λ u. self.new)
            (call_begun (called_of callee) passed.entry site focus self.old
            (R.state recorder.old)) result (R.state recorder.new) }
        ensures kept { R.kept recorder.new ≡ R.kept recorder.old }
    {
        match callee {
            Callee::Template(template) => {
                self.call_template(template, passed, site, focus, recorder)
            }
            Callee::Rules(mode, nodes) => {
                let passed = passed.shared(self.alloc)?;
                let rules = Rules { mode, passed };
                self.apply(rules, nodes, site, focus, recorder)
            }
        }
    }

    /// A template begins that is called by its number (6).
    fn call_template<R: Recorder<Task = Task<'a>>>(
        &mut self,
        template: u32,
        passed: Passed<'a>,
        site: Site,
        focus: Focus,
        recorder: &mut R,
    ) -> Result<(), Halt>
        requires node { focus.node < length self.old.world.tree }
        requires passed { AreValues self.old.world.tree passed.values }
        ensures reported { IsStepBy (λ u. self.new)
            (call_begun (by_number template) passed.entry site focus self.old
            (R.state recorder.old)) result (R.state recorder.new) }
        ensures kept { R.kept recorder.new ≡ R.kept recorder.old }
    {
        recorder.tick(site)?;
        self.enter_named(template, passed, site, focus, recorder)
    }
}
