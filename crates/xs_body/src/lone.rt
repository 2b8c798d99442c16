//! Content of one instruction that puts a text alone: what is made of it needs no capture (XSLT
//! 1.0, 7.1.3, 7.3 and 7.4).

ghost use Rattle.std.specs.Prelude.{◌≡◌, ◌<◌, length, option_map};
ghost use Rattle.xs_body.specs.steps.Frames.{fixed_lone, instrs_of, lone_instr, lone_selected};
ghost use Rattle.xs_body.specs.steps.Frames.{lone_steps, selected_lone, selected_text};
ghost use Rattle.xs_body.specs.steps.Making.{fixed_text, selected, text_ticked};
ghost use Rattle.xs_trace.specs.Play.{IsStepBy};

use crate::evaluator::Evaluator;
use crate::frames::Scope;
use crate::task::Task;
use xs_body_spec::finder::Finder;
use xs_sheet::body::{Body, Instr, InstrKind};
use xs_sheet::scoped::ScopedExpr;
use xs_text::TextBuf;
use xs_trace::item::Site;
use xs_trace::recorder::{Halt, Recorder};

impl<'a, K: Finder> Evaluator<'a, K> {
    /// The text of content that is one instruction and puts a text alone, after its ticks; none of
    /// other content.
    #[inline(always)]
    pub(crate) fn lone_text<R: Recorder<Task = Task<'a>>>(
        &mut self,
        body: &Body,
        scope: Scope,
        recorder: &mut R,
    ) -> Result<Option<TextBuf>, Halt>
        requires node { scope.focus.node < length self.old.world.tree }
        ensures reported { IsStepBy (λ text. text) (lone_steps (instrs_of body.now) scope self.old
            (R.state recorder.old)) result (R.state recorder.new) }
        ensures kept { R.kept recorder.new ≡ R.kept recorder.old }
        ensures same { self.new ≡ self.old }
    {
        match body.instrs.as_slice() {
            [] => Ok(None),
            [instr] => self.text_alone(instr, scope, recorder),
            [_, _, ..] => Ok(None),
        }
    }

    /// The text of an instruction that puts a text alone; none of others.
    #[inline(always)]
    fn text_alone<R: Recorder<Task = Task<'a>>>(
        &mut self,
        instr: &Instr,
        scope: Scope,
        recorder: &mut R,
    ) -> Result<Option<TextBuf>, Halt>
        requires node { scope.focus.node < length self.old.world.tree }
        ensures reported { IsStepBy (λ text. text) (lone_instr instr.now scope self.old
            (R.state recorder.old)) result (R.state recorder.new) }
        ensures kept { R.kept recorder.new ≡ R.kept recorder.old }
        ensures same { self.new ≡ self.old }
    {
        match fixed_text(&instr.kind) {
            Some(text) => self.fixed_alone(text, instr.site, recorder),
            None => self.string_alone(selected(&instr.kind), instr.site, scope, recorder),
        }
    }

    /// A text of the stylesheet, after its ticks (7.2).
    #[inline(always)]
    fn fixed_alone<R: Recorder<Task = Task<'a>>>(
        &mut self,
        text: &TextBuf,
        site: Site,
        recorder: &mut R,
    ) -> Result<Option<TextBuf>, Halt>
        ensures reported { IsStepBy (λ text. text) (fixed_lone text.now site (R.state recorder.old))
            result (R.state recorder.new) }
        ensures kept { R.kept recorder.new ≡ R.kept recorder.old }
        ensures same { self.new ≡ self.old }
    {
        recorder.tick(site)?;
        let copy = self.texts.text(text.as_str())?;
        with_ticks(copy, site, recorder)
    }

    /// The string of an expression, after its ticks (7.6.1); none where there is no expression.
    fn string_alone<R: Recorder<Task = Task<'a>>>(
        &self,
        select: Option<&ScopedExpr>,
        site: Site,
        scope: Scope,
        recorder: &mut R,
    ) -> Result<Option<TextBuf>, Halt>
        requires node { scope.focus.node < length self.now.world.tree }
        ensures reported { IsStepBy (λ text. text)
            (lone_selected (option_map (λ e. e.now) select.entry) site scope self.now
            (R.state recorder.old)) result (R.state recorder.new) }
        ensures kept { R.kept recorder.new ≡ R.kept recorder.old }
    {
        match select {
            None => Ok(None),
            Some(select) => self.selected_alone(select, site, scope, recorder),
        }
    }

    /// The string of an expression, after its ticks (7.6.1).
    #[inline(never)]
    fn selected_alone<R: Recorder<Task = Task<'a>>>(
        &self,
        select: &ScopedExpr,
        site: Site,
        scope: Scope,
        recorder: &mut R,
    ) -> Result<Option<TextBuf>, Halt>
        requires node { scope.focus.node < length self.now.world.tree }
        ensures reported { IsStepBy (λ text. text) (selected_lone select.now site scope self.now
            (R.state recorder.old)) result (R.state recorder.new) }
        ensures kept { R.kept recorder.new ≡ R.kept recorder.old }
    {
        recorder.tick(site)?;
        self.selected_text(select, site, scope, recorder)
    }

    /// The string of an expression, after the ticks of the event that it would be.
    fn selected_text<R: Recorder<Task = Task<'a>>>(
        &self,
        select: &ScopedExpr,
        site: Site,
        scope: Scope,
        recorder: &mut R,
    ) -> Result<Option<TextBuf>, Halt>
        requires node { scope.focus.node < length self.now.world.tree }
        ensures reported { IsStepBy (λ text. text) (selected_text select.now site scope self.now
            (R.state recorder.old)) result (R.state recorder.new) }
        ensures kept { R.kept recorder.new ≡ R.kept recorder.old }
    {
        let text = self.text(select, site, scope, recorder)?;
        let text = text.to_text(self.alloc)?;
        with_ticks(text, site, recorder)
    }
}

/// A text, after the ticks of the event that it would be.
#[inline(always)]
fn with_ticks<R: Recorder>(
    text: TextBuf,
    site: Site,
    recorder: &mut R,
) -> Result<Option<TextBuf>, Halt>
    ensures reported { IsStepBy (λ text. text) (text_ticked site text (R.state recorder.old))
        result (R.state recorder.new) }
    ensures kept { R.kept recorder.new ≡ R.kept recorder.old }
{
    recorder.ticks(site, (text.as_str().len() / 256) as u64)?;
    Ok(Some(text))
}

/// The text that an instruction puts, where it is one of the stylesheet.
#[inline(always)]
fn fixed_text(kind: &InstrKind) -> Option<&TextBuf>
    ensures { option_map (λ t. t.now) result ≡ fixed_text kind.now }
{
    match kind {
        InstrKind::Text(text) => Some(text),
        _ => None,
    }
}

/// The expression whose string an instruction puts, where it puts one.
#[inline(always)]
fn selected(kind: &InstrKind) -> Option<&ScopedExpr>
    ensures { option_map (λ e. e.now) result ≡ selected kind.now }
{
    match kind {
        InstrKind::ValueOf(select) => Some(select),
        _ => None,
    }
}
