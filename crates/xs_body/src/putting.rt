//! What is put.

ghost use Rattle.std.specs.Prelude.{◌≡◌, ◌<◌, length, IfOk};
ghost use Rattle.xs_body.specs.steps.Frames.{value_steps};
ghost use Rattle.xs_body.specs.steps.Making.{chars_steps};
ghost use Rattle.xs_making.specs.Putting.{events_steps};
ghost use Rattle.xs_trace.specs.Play.{IsStep, put_at};
ghost use Rattle.xs_value.specs.Conversion.{fragment_text};

use crate::evaluator::Evaluator;
use crate::frames::Scope;
use crate::task::Task;
use std::alloc::{AllocError, Global};
use xs_body_spec::finder::Finder;
use xs_sheet::scoped::ScopedExpr;
use xs_text::{Characters, TextBuf};
use xs_trace::event::{Event, Fragment};
use xs_trace::item::Site;
use xs_trace::recorder::{Halt, Recorder, put_event};
use xs_tree::Tree;
use xs_value::conversion::to_text;
use xs_value::shared::SharedFragment;
use xs_value::value::Value;

/// Puts a text that is not empty.
pub(crate) fn put_text<R: Recorder>(
    site: Site,
    text: Characters,
    recorder: &mut R,
) -> Result<(), Halt>
    ensures reported { IsStep (chars_steps site text (R.state recorder.old))
        result (R.state recorder.new) }
    ensures kept { R.kept recorder.new ≡ R.kept recorder.old }
{
    if text.is_empty() {
        Ok(())
    } else {
        put_event(recorder, site, Event::Chars(text))
    }
}

/// Puts a text that another owns, if it is not empty.
pub(crate) fn put_copied_text<R: Recorder>(
    site: Site,
    text: &TextBuf,
    recorder: &mut R,
) -> Result<(), Halt>
    ensures reported { IsStep (chars_steps site text.now (R.state recorder.old))
        result (R.state recorder.new) }
    ensures kept { R.kept recorder.new ≡ R.kept recorder.old }
{
    put_text(site, Characters::sharing(text)?, recorder)
}

impl<'a, K: Finder> Evaluator<'a, K> {
    /// Puts the string of an expression (XSLT 1.0, 7.6.1).
    pub(crate) fn put_value<R: Recorder<Task = Task<'a>>>(
        &self,
        select: &ScopedExpr,
        site: Site,
        scope: Scope,
        recorder: &mut R,
    ) -> Result<(), Halt>
        requires node { scope.focus.node < length self.now.world.tree }
        ensures reported { IsStep (value_steps select.now site scope self.now
            (R.state recorder.old)) result (R.state recorder.new) }
        ensures kept { R.kept recorder.new ≡ R.kept recorder.old }
    {
        let text = self.text(select, site, scope, recorder)?;
        put_text(site, text, recorder)
    }

    /// Puts a text of the stylesheet (7.2).
    pub(crate) fn put_fixed_text<R: Recorder<Task = Task<'a>>>(
        &mut self,
        text: &TextBuf,
        site: Site,
        recorder: &mut R,
    ) -> Result<(), Halt>
        ensures reported { IsStep (chars_steps site text.now (R.state recorder.old))
            result (R.state recorder.new) }
        ensures kept { R.kept recorder.new ≡ R.kept recorder.old }
        ensures same { self.new ≡ self.old }
    {
        let text = self.texts.text(text.as_str())?;
        put_text(site, Characters::from_text(text), recorder)
    }
}

/// Puts events, one after another.
pub(crate) fn put_events<R: Recorder>(
    site: Site,
    events: &[Event],
    recorder: &mut R,
) -> Result<(), Halt>
    ensures reported { IsStep (events_steps site events.now (R.state recorder.old))
        result (R.state recorder.new) }
    ensures kept { R.kept recorder.new ≡ R.kept recorder.old }
{
    let mut left = events;
    while let Some((event, behind)) = left.split_first() {
        put_copied(site, event, recorder)?;
        left = behind;
    }
    Ok(())
}

/// Puts an event that another owns.
fn put_copied<R: Recorder>(site: Site, event: &Event, recorder: &mut R) -> Result<(), Halt>
    ensures reported { IsStep (put_at site event.now (R.state recorder.old))
        result (R.state recorder.new) }
    ensures kept { R.kept recorder.new ≡ R.kept recorder.old }
{
    put_event(recorder, site, event.copy()?)
}

/// The text of all text nodes of captured content, those inside elements among them.
pub(crate) fn events_text(
    alloc: Global,
    tree: &Tree,
    fragment: Fragment,
) -> Result<TextBuf, AllocError>
    ensures { IfOk result (λ text. text ≡ fragment_text fragment) }
{
    let value = Value::Piece(SharedFragment::of(alloc, fragment)?);
    to_text(alloc, tree, &value)
}
