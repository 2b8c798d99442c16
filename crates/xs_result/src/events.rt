//! What stays of the events that were put (XSLT 1.0, 7).

ghost use Rattle.std.specs.Prelude.{◌≡◌, List, IfOk, OnOk, map};
ghost use Rattle.std.specs.Iterator.{Drains, IsFinite};
ghost use Rattle.xs_result.specs.Built.{built};
ghost use Rattle.xs_result.specs.Building.{nothing, taken_all};
ghost use Rattle.xs_result.specs.steps.Views.{state};
ghost use Rattle.xs_trace.specs.declared.event.Event.{Event};
ghost use denote.Ref.{Bor};

use crate::builder::Builder;
use std::alloc::{AllocError, Global};
use xs_trace::event::{Event, Fragment};

/// What stays of the events that an iterator gives: attributes and namespace nodes only where their
/// element has no child yet, of attributes of one name the first with the last value, texts side by
/// side as one, ends only where an element is open (XSLT 1.0, 7.1.3 and 7.2).
pub fn build<'e, I: Iterator<Item = &'e Event> + Drop>(
    alloc: Global,
    events: I,
) -> Result<Fragment, AllocError>
    requires can { I.can_next events }
    requires ends { IsFinite (I.remaining events) }
    ensures { IfOk result (λ fragment. (es : List (Bor Event)) × Drains I.next_gives events es
        × (fragment ≡ built (map (λ e. e.now) es))) }
{
    let builder = take_all(alloc, events)?;
    let fragment = builder.finish()?;
    Ok(fragment)
}

/// A builder that took them all.
fn take_all<'e, I: Iterator<Item = &'e Event> + Drop>(
    alloc: Global,
    events: I,
) -> Result<Builder<'e>, AllocError>
    requires can { I.can_next events }
    requires ends { IsFinite (I.remaining events) }
    ensures { (es : List (Bor Event))
        × IfOk result (λ builder. state builder ≡ taken_all nothing (map (λ e. e.now) es))
        × OnOk result (Drains I.next_gives events es) }
{
    let mut builder = Builder::new(alloc);
    for event in events {
        builder.take(event)?;
    }
    Ok(builder)
}
