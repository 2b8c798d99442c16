//! The values of bindings (XSLT 1.0, 11.2).

ghost use Rattle.std.specs.Prelude.{◌≡◌, ◌<◌, ◌∷◌, [], length, IfOk};
ghost use Rattle.xs_body.specs.steps.Frames.{advanced, captured_scope, content_begun, fill};
ghost use Rattle.xs_body.specs.steps.Frames.{instrs_of, pushed, rest};
ghost use Rattle.xs_body_spec.specs.Trace.{fragment_of};
ghost use Rattle.xs_sheet.specs.declared.body.Content.TheVariants.{Select};
ghost use Rattle.xs_trace.specs.Play.{Goes, IsStepBy};
ghost use Rattle.xs_trace.specs.State.{opened};

use crate::evaluator::Evaluator;
use crate::frames::{Frame, Scope};
use crate::task::Task;
use std::alloc::{AllocError, Global};
use xs_body_spec::finder::Finder;
use xs_result::build;
use xs_sheet::body::{Body, Content};
use xs_sheet::scoped::ScopedExpr;
use xs_text::TextBuf;
use xs_trace::event::Fragment;
use xs_trace::item::Site;
use xs_trace::recorder::{Halt, Recorder};
use xs_value::shared::SharedFragment;
use xs_value::value::Value;

impl<'a, K: Finder> Evaluator<'a, K> {
    /// A binding fills a slot with its value, or begins its content (11.2).
    pub(crate) fn bind<R: Recorder<Task = Task<'a>>>(
        &mut self,
        content: &'a Content,
        site: Site,
        scope: Scope,
        recorder: &mut R,
    ) -> Result<(), Halt>
        requires node { scope.focus.node < length self.old.world.tree }
        ensures reported { IsStepBy (λ u. self.new)
            (content_begun content.now site scope self.old
            (R.state recorder.old)) result (R.state recorder.new) }
        ensures kept { R.kept recorder.new ≡ R.kept recorder.old }
    {
        match content {
            Content::Empty => {
                self.fill(Value::Chars(TextBuf::of(self.alloc, "")?))?;
                Ok(())
            }
            Content::Select(expr) => self.bind_selected(expr, site, scope, recorder),
            Content::Body(body) => self.bind_content(body, scope, recorder),
        }
    }

    /// The value of an expression fills a slot.
    fn bind_selected<R: Recorder<Task = Task<'a>>>(
        &mut self,
        expr: &ScopedExpr,
        site: Site,
        scope: Scope,
        recorder: &mut R,
    ) -> Result<(), Halt>
        requires node { scope.focus.node < length self.old.world.tree }
        ensures reported { IsStepBy (λ u. self.new)
            (content_begun (Select expr.now) site scope self.old
            (R.state recorder.old)) result (R.state recorder.new) }
        ensures kept { R.kept recorder.new ≡ R.kept recorder.old }
    {
        let value = self.value(expr, site, scope, recorder)?;
        self.fill(value)?;
        Ok(())
    }

    /// The content of a binding begins.
    fn bind_content<R: Recorder<Task = Task<'a>>>(
        &mut self,
        body: &'a Body,
        scope: Scope,
        recorder: &mut R,
    ) -> Result<(), Halt>
        requires node { scope.focus.node < length self.old.world.tree }
        ensures reported { IsStepBy (λ u. self.new)
            (Goes (pushed (rest (instrs_of body.now) (captured_scope scope) ∷ fill ∷ []) self.old)
            (opened (R.state recorder.old))) result (R.state recorder.new) }
        ensures kept { R.kept recorder.new ≡ R.kept recorder.old }
    {
        recorder.open_capture()?;
        self.push(Frame::Fill)?;
        self.push_body(body, scope.in_capture())?;
        Ok(())
    }

    /// The content of a binding has ended.
    pub(crate) fn fill_slot<R: Recorder<Task = Task<'a>>>(
        &mut self,
        recorder: &mut R,
    ) -> Result<(), Halt>
        ensures reported { IsStepBy (λ u. self.new)
            (advanced fill self.old
            (R.state recorder.old)) result (R.state recorder.new) }
        ensures kept { R.kept recorder.new ≡ R.kept recorder.old }
    {
        let fragment = recorder.close_capture();
        let value = fragment_value(self.alloc, fragment)?;
        self.fill(value)?;
        Ok(())
    }
}

/// The value of captured content (11.1).
pub(crate) fn fragment_value(alloc: Global, fragment: Fragment) -> Result<Value, AllocError>
    ensures { IfOk result (λ value. value ≡ Value.Piece (fragment_of fragment)) }
{
    let built = build(alloc, fragment.events().iter())?;
    Ok(Value::Piece(SharedFragment::of(alloc, built)?))
}
