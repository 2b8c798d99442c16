//! What is made of captured content (XSLT 1.0, 7.1.3, 7.3 and 7.4).

ghost use Rattle.std.specs.Prelude.{◌≡◌, ◌+◌, ◌<◌, ◌^◌, ◌==◌, ◌++◌, [], IfOk, IfSome, OnOk};
ghost use Rattle.std.specs.Prelude.{if◌then◌else◌, string_bytes};
ghost use Rattle.xs_body.specs.steps.Making.{depth_after, made_steps, text_added};
ghost use Rattle.xs_body_spec.specs.Making.{content_text};
ghost use Rattle.xs_trace.specs.Play.{IsStep};

use crate::literals::put_attribute;
use std::alloc::{AllocError, Global};
use xs_body_spec::made::Made;
use xs_making::{comment_text, pi_text};
use xs_text::{Characters, TextBuf};
use xs_trace::event::Event;
use xs_trace::item::Site;
use xs_trace::recorder::{Halt, Recorder, put_event};

/// Puts what is made of a text.
pub(crate) fn put_made<R: Recorder>(
    alloc: Global,
    made: Made,
    text: TextBuf,
    site: Site,
    recorder: &mut R,
) -> Result<(), Halt>
    ensures reported { IsStep (made_steps made text site (R.state recorder.old))
        result (R.state recorder.new) }
    ensures kept { R.kept recorder.new ≡ R.kept recorder.old }
{
    match made {
        Made::Attribute(name) => put_attribute(name, text, site, recorder),
        Made::Comment => {
            let text = comment_text(alloc, text.as_str())?;
            put_event(recorder, site, Event::Comment(text))
        }
        Made::Instruction(target) => {
            let value = pi_text(alloc, text.as_str())?;
            put_event(recorder, site, Event::Pi { target, value })
        }
    }
}

/// The texts of content, except for those in elements. One that is shared stays so.
pub(crate) fn content_text(alloc: Global, events: &[Event]) -> Result<TextBuf, AllocError>
    ensures { IfOk result (λ text. text ≡ content_text events.now) }
{
    match lone_text(events) {
        Some(text) => text.to_text(alloc),
        None => joined_text(alloc, events),
    }
}

/// The text that is all of some content, if it is one text.
fn lone_text(events: &[Event]) -> Option<&Characters>
    ensures { IfSome result (λ text. text.now ≡ content_text events.now) }
{
    match events {
        [Event::Chars(text)] => Some(text),
        _ => None,
    }
}

/// The texts of content, except for those in elements, one after another.
fn joined_text(alloc: Global, events: &[Event]) -> Result<TextBuf, AllocError>
    ensures { IfOk result (λ text. text ≡ content_text events.now) }
{
    let mut text = String::new(alloc);
    let mut depth: usize = 0;
    let mut left = events;
    while let Some((event, others)) = left.split_first() {
        add_text(&mut text, event, depth)?;
        depth = depth_after(event, depth);
        left = others;
    }
    TextBuf::from_string(text)
}

/// Adds the text of an event where no element is open.
fn add_text(text: &mut String, event: &Event, depth: usize) -> Result<(), AllocError>
    ensures { OnOk result
        (string_bytes text.new ≡ string_bytes text.old ++ text_added event.now depth) }
{
    match event {
        Event::Chars(more) => add_outside(text, more.as_str(), depth),
        Event::Start(_) => Ok(()),
        Event::Space { .. } => Ok(()),
        Event::Attr { .. } => Ok(()),
        Event::End => Ok(()),
        Event::Comment(_) => Ok(()),
        Event::Pi { .. } => Ok(()),
    }
}

/// Adds a text where no element is open.
fn add_outside(text: &mut String, more: &str, depth: usize) -> Result<(), AllocError>
    ensures { OnOk result (string_bytes text.new
        ≡ string_bytes text.old ++ (if depth == 0 then more.now else [])) }
{
    if depth == 0 {
        return text.push_str(more);
    }
    Ok(())
}

/// How many elements are open after an event.
fn depth_after(event: &Event, depth: usize) -> usize
    requires few { depth + 1 < 2 ^ 64 }
    ensures { result ≡ depth_after event.now depth }
{
    match event {
        Event::Start(_) => depth + 1,
        Event::End => depth.saturating_sub(1),
        Event::Space { .. } => depth,
        Event::Attr { .. } => depth,
        Event::Chars(_) => depth,
        Event::Comment(_) => depth,
        Event::Pi { .. } => depth,
    }
}
