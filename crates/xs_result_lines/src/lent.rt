//! Start tags whose events are lent: those of which the lines are written from the events as they
//! came, and any others, for which events are made.
ghost use Rattle.std.specs.Prelude.{◌≡◌, ◌++◌, ◌&&◌, false, true, IfOk, OnOk, length, take};
ghost use Rattle.std.specs.Str.{IsUtf8, bytes_eq};
ghost use Rattle.xs_result.specs.Building.{flushed};
ghost use Rattle.xs_result_lines.specs.Bindings.{attributes_in, outermost};
ghost use Rattle.xs_result_lines.specs.Lines.{bytes_of};
ghost use Rattle.xs_result_lines.specs.steps.InForce.{are_plain, is_plain_tag, own_lines};
ghost use Rattle.xs_result_lines.specs.steps.InForce.{plain_lines};
ghost use Rattle.xs_result_lines.specs.steps.Pending.{IsNamed, begun, clashes, is_clear, is_simple};
ghost use Rattle.xs_result_lines.specs.steps.Pending.{lent};

use crate::in_force::is_plain;
use crate::name_lines::{append_event, append_start};
use crate::scope::Scope;
use crate::tag_bindings::is_in_tag;
use std::alloc::{AllocError, Global};
use xs_result::build;
use xs_trace::event::{Event, Fragment, Label};

/// How many events a start tag has at most that are compared one with another.
const FEW: usize = 24;

/// Whether these events belong to a start tag, and no two attributes among them have one name. Of
/// more than a few it answers no.
pub(crate) fn is_simple(added: &[&Event]) -> bool
    ensures { result ≡ true → is_simple (lent added.now) ≡ true }
{
    if added.len() > FEW {
        return false;
    }
    are_apart(added)
}

/// The same of any number of events.
#[tactic(auto, unfolding(crate::specs::steps::Pending::is_simple))]
fn are_apart(added: &[&Event]) -> bool
    ensures { result ≡ is_simple (lent added.now) }
{
    let mut behind = 0;
    for event in added {
        behind += 1;
        if !is_in_tag(*event) {
            return false;
        }
        if !is_clear(*event, &added[behind..]) {
            return false;
        }
    }
    true
}

/// Whether no later attribute has the name of an event.
fn is_clear(event: &Event, behind: &[&Event]) -> bool
    ensures { result ≡ is_clear event.now (lent behind.now) }
{
    match event {
        Event::Attr { name, .. } => is_unique(event, name, name.local().as_bytes(), behind),
        Event::Start(_) => true,
        Event::Space { .. } => true,
        Event::Chars(_) => true,
        Event::End => true,
        Event::Comment(_) => true,
        Event::Pi { .. } => true,
    }
}

/// Whether no later attribute has the name of an attribute, of which the local part is lent too.
#[tactic(auto, unfolding(crate::specs::steps::Pending::is_clear))]
fn is_unique(event: &Event, name: &Label, local: &[u8], behind: &[&Event]) -> bool
    requires named { IsNamed name.now event.now }
    requires local { local.now ≡ name.now.local }
    ensures { result ≡ is_clear event.now (lent behind.now) }
{
    for later in behind {
        if clashes(event, name, local, *later) {
            return false;
        }
    }
    true
}

/// Whether a later event is an attribute of the name that an attribute has.
fn clashes(event: &Event, name: &Label, local: &[u8], later: &Event) -> bool
    requires named { IsNamed name.now event.now }
    requires local { local.now ≡ name.now.local }
    ensures { result ≡ clashes event.now later.now }
{
    let _event = event;
    match later {
        Event::Attr { name: other, .. } => is_same(name, local, other),
        Event::Start(_) => false,
        Event::Space { .. } => false,
        Event::Chars(_) => false,
        Event::End => false,
        Event::Comment(_) => false,
        Event::Pi { .. } => false,
    }
}

/// Whether another name has the URI and the local part of a name. Most names of a tag differ in the
/// length or the last byte of their local parts, so that these come first.
fn is_same(own: &Label, local: &[u8], name: &Label) -> bool
    requires local { local.now ≡ own.now.local }
    ensures { result
        ≡ (bytes_eq name.now.uri own.now.uri && bytes_eq name.now.local own.now.local) }
{
    if !ends_alike(name.local().as_bytes(), local) {
        return false;
    }
    name.uri() == own.uri() && name.local() == own.local()
}

/// Whether two texts have one length and one last byte.
fn ends_alike(text: &[u8], other: &[u8]) -> bool
    ensures alike { result ≡ false → bytes_eq text.now other.now ≡ false }
{
    let len = text.len();
    if len != other.len() {
        return false;
    }
    if len == 0 {
        return true;
    }
    text[len - 1] == other[len - 1]
}

/// Whether the start tag of an element declares nothing here, and its attributes keep their
/// prefixes.
pub(crate) fn is_plain_lent(
    scope: &Scope,
    name: &Label,
    added: &[&Event],
) -> Result<bool, AllocError>
    ensures { IfOk result (λ holds. holds
        ≡ is_plain_tag (scope.now ++ outermost) name.now (lent added.now)) }
{
    if !scope.is_in_force(name.prefix(), name.uri())? {
        return Ok(false);
    }
    are_plain_lent(scope, added)
}

/// Whether nothing is declared for the events of a start tag.
#[tactic(auto, unfolding(crate::specs::steps::InForce::are_plain))]
fn are_plain_lent(scope: &Scope, added: &[&Event]) -> Result<bool, AllocError>
    ensures { IfOk result (λ hold. hold ≡ are_plain (scope.now ++ outermost) (lent added.now)) }
{
    for event in added {
        if !is_in_tag(*event) {
            return Ok(true);
        }
        if !is_plain(scope, *event)? {
            return Ok(false);
        }
    }
    Ok(true)
}

/// Appends the lines of a start tag that declares nothing, where its attributes keep their
/// prefixes. After a refusal a part of them.
#[tactic(auto, unfolding(crate::specs::Lines::bytes_of))]
pub(crate) fn append_lent_tag(
    out: &mut Vec<u8>,
    name: &Label,
    added: &[&Event],
) -> Result<(), AllocError>
    ensures written { OnOk result
        (out.new.items ≡ out.old.items ++ bytes_of (plain_lines name.now (lent added.now))) }
    ensures kept { take (length out.old.items) out.new.items ≡ out.old.items }
    ensures utf8 { IsUtf8 out.old.items → IsUtf8 out.new.items }
{
    append_start(out, name)?;
    append_lent_attributes(out, added)
}

/// Appends the lines of the attributes of a start tag.
#[tactic(auto, unfolding(crate::specs::Bindings::attributes_in, crate::specs::Lines::bytes_of))]
pub(crate) fn append_lent_attributes(out: &mut Vec<u8>, added: &[&Event]) -> Result<(), AllocError>
    ensures written { OnOk result (out.new.items
        ≡ out.old.items ++ bytes_of (own_lines (attributes_in (lent added.now)))) }
    ensures kept { take (length out.old.items) out.new.items ≡ out.old.items }
    ensures utf8 { IsUtf8 out.old.items → IsUtf8 out.new.items }
{
    for event in added {
        if !is_in_tag(*event) {
            return Ok(());
        }
        append_event(out, *event)?;
    }
    Ok(())
}

/// What a builder makes of the events of a start tag.
pub(crate) fn built(alloc: Global, tag: &[&Event]) -> Result<Fragment, AllocError>
    ensures { IfOk result (λ events. events ≡ flushed (begun tag.now)) }
{
    let events = build(alloc, tag.iter().copied())?;
    Ok(events)
}
