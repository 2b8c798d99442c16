//! Bodies that are evaluated where a test holds (XSLT 1.0, 9).

ghost use Rattle.std.specs.Prelude.{◌≡◌, ◌<◌, length};
ghost use Rattle.xs_body.specs.steps.Frames.{choice_begun, chosen, if_begun, last};
ghost use Rattle.xs_trace.specs.Play.{IsStepBy};
ghost use Rattle.xs_trace.specs.Run.{limited};

use crate::evaluator::Evaluator;
use crate::frames::Scope;
use crate::task::Task;
use xs_body_spec::finder::Finder;
use xs_sheet::body::{Body, Choice, When};
use xs_sheet::scoped::ScopedExpr;
use xs_trace::item::Site;
use xs_trace::recorder::{Halt, Recorder, Tally};

impl<'a, K: Finder> Evaluator<'a, K> {
    /// A body begins where a test holds (9.1).
    pub(crate) fn begin_if<R: Recorder<Task = Task<'a>>>(
        &mut self,
        test: &ScopedExpr,
        body: &'a Body,
        site: Site,
        scope: Scope,
        recorder: &mut R,
    ) -> Result<(), Halt>
        requires node { scope.focus.node < length self.old.world.tree }
        ensures reported { IsStepBy (λ u. self.new)
            (if_begun test.now body.now site scope self.old
            (R.state recorder.old)) result (R.state recorder.new) }
        ensures kept { R.kept recorder.new ≡ R.kept recorder.old }
    {
        if self.holds(test, site, scope, recorder)? {
            self.push_body(body, scope.inner())?;
        }
        Ok(())
    }

    /// The body of the first test that holds begins (9.2).
    pub(crate) fn begin_choice<R: Recorder<Task = Task<'a>>>(
        &mut self,
        choice: &'a Choice,
        site: Site,
        scope: Scope,
        recorder: &mut R,
    ) -> Result<(), Halt>
        requires node { scope.focus.node < length self.old.world.tree }
        ensures reported { IsStepBy (λ u. self.new)
            (choice_begun choice.now site scope self.old
            (R.state recorder.old)) result (R.state recorder.new) }
        ensures kept { R.kept recorder.new ≡ R.kept recorder.old }
    {
        let body = self.chosen(choice, site, scope, recorder)?;
        self.push_body(body, scope.inner())?;
        Ok(())
    }

    /// The body of the first test that holds, or the one for all other cases.
    fn chosen<T: Tally>(
        &self,
        choice: &'a Choice,
        site: Site,
        scope: Scope,
        tally: &mut T,
    ) -> Result<&'a Body, Halt>
        requires node { scope.focus.node < length self.now.world.tree }
        ensures reported { IsStepBy (λ body. body.now) (limited site
            (chosen choice.now self.now.world scope.focus (last scope.seen self.now.slots))
            (T.state tally.old)) result (T.state tally.new) }
        ensures kept { T.kept tally.new ≡ T.kept tally.old }
    {
        let mut left: &'a [When] = choice.whens.as_slice();
        while let Some((when, behind)) = left.split_first() {
            if self.holds(&when.test, site, scope, tally)? {
                return Ok(&when.body);
            }
            left = behind;
        }
        Ok(&choice.otherwise)
    }
}
