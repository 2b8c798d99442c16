//! Start tags whose namespace nodes come before their attributes, in the order of their prefixes,
//! where one of them is for the prefix of the element: they bind what these nodes say.
ghost use Rattle.std.specs.Prelude.{◌≡◌, ◌++◌, ◌&&◌, true, IfOk, List, OnOk, filter};
ghost use Rattle.std.specs.List.{cons_option};
ghost use Rattle.std.specs.Str.{bytes_eq};
ghost use Rattle.xs_result_lines.specs.Bindings.{Binding, bindings_before, declared, is_new};
ghost use Rattle.xs_result_lines.specs.Bindings.{outermost, space_of, spaces_in};
ghost use Rattle.xs_result_lines.specs.steps.Bound.{keep_own};
ghost use Rattle.xs_result_lines.specs.steps.Open.{bindings_of};
ghost use Rattle.xs_result_lines.specs.steps.Ordered.{are_ordered, begins_with_attribute, follows};
ghost use Rattle.xs_result_lines.specs.steps.Ordered.{goes_on, has_space, is_after, is_attribute};
ghost use Rattle.xs_result_lines.specs.steps.Ordered.{is_space_of, keep_among, keeps_among};
ghost use Rattle.xs_result_lines.specs.steps.Ordered.{may_keep_among};
ghost use Rattle.xs_result_lines.specs.steps.Pending.{lent};

use crate::scope::{Declared, Scope};
use crate::tag_bindings::{is_in_tag, needs_prefix};
use std::alloc::{AllocError, Global};
use xs_text::{TextBuf, is_same};
use xs_trace::event::{Event, Label};

/// Whether the start tag of an element binds what its namespace nodes say, and each of its
/// attributes needs no prefix, or its own is bound to its URI.
pub(crate) fn binds_own_spaces(name: &Label, added: &[&Event]) -> bool
    ensures before { result ≡ true
        → bindings_before name.now (lent added.now) ≡ spaces_in (lent added.now) }
    ensures own { result ≡ true
        → keep_own (spaces_in (lent added.now)) (lent added.now) ≡ true }
{
    if !are_ordered(added) {
        return false;
    }
    if !has_space(name.prefix(), name.uri(), added) {
        return false;
    }
    keep_among(added)
}

/// Whether these events are namespace nodes in the order of their prefixes, and then attributes.
#[tactic(auto, unfolding(crate::specs::steps::Ordered::are_ordered))]
fn are_ordered(added: &[&Event]) -> bool
    ensures { result ≡ are_ordered (lent added.now) }
{
    let mut behind = 0;
    for event in added {
        behind += 1;
        if !goes_on(*event, &added[behind..]) {
            return false;
        }
    }
    true
}

/// Whether an event may come before these.
fn goes_on(event: &Event, behind: &[&Event]) -> bool
    ensures { result ≡ goes_on event.now (lent behind.now) }
{
    match event {
        Event::Space { prefix, .. } => follows(prefix, behind),
        Event::Attr { .. } => begins_with_attribute(behind),
        Event::Start(_) => false,
        Event::Chars(_) => false,
        Event::End => false,
        Event::Comment(_) => false,
        Event::Pi { .. } => false,
    }
}

/// Whether the first of these events, if there is one, may come after the namespace node of a
/// prefix.
fn follows(prefix: &TextBuf, events: &[&Event]) -> bool
    ensures { result ≡ follows prefix.now (lent events.now) }
{
    match events.split_first() {
        Some(parts) => is_after(prefix, *parts.0),
        None => true,
    }
}

/// Whether the first of these events, if there is one, is an attribute.
fn begins_with_attribute(events: &[&Event]) -> bool
    ensures { result ≡ begins_with_attribute (lent events.now) }
{
    match events.split_first() {
        Some(parts) => is_attribute(*parts.0),
        None => true,
    }
}

/// Whether an event may come after the namespace node of a prefix.
fn is_after(prefix: &TextBuf, event: &Event) -> bool
    ensures { result ≡ is_after prefix.now event.now }
{
    match event {
        Event::Space { prefix: other, .. } => prefix.as_str() < other.as_str(),
        Event::Attr { .. } => true,
        Event::Start(_) => false,
        Event::Chars(_) => false,
        Event::End => false,
        Event::Comment(_) => false,
        Event::Pi { .. } => false,
    }
}

/// Whether an event is an attribute.
fn is_attribute(event: &Event) -> bool
    ensures { result ≡ is_attribute event.now }
{
    match event {
        Event::Attr { .. } => true,
        Event::Start(_) => false,
        Event::Space { .. } => false,
        Event::Chars(_) => false,
        Event::End => false,
        Event::Comment(_) => false,
        Event::Pi { .. } => false,
    }
}

/// Whether one of these events is the namespace node of a binding.
#[tactic(auto, unfolding(crate::specs::steps::Ordered::has_space))]
fn has_space(prefix: &str, uri: &str, added: &[&Event]) -> bool
    ensures { result ≡ has_space prefix.now uri.now (lent added.now) }
{
    for event in added {
        if is_space_of(prefix, uri, *event) {
            return true;
        }
    }
    false
}

/// Whether an event is the namespace node of a binding.
fn is_space_of(prefix: &str, uri: &str, event: &Event) -> bool
    ensures { result ≡ is_space_of prefix.now uri.now event.now }
{
    match event {
        Event::Space {
            prefix: other,
            uri: bound,
        } => are_same(other, prefix, bound, uri),
        Event::Attr { .. } => false,
        Event::Start(_) => false,
        Event::Chars(_) => false,
        Event::End => false,
        Event::Comment(_) => false,
        Event::Pi { .. } => false,
    }
}

/// Whether two texts are the same, and two others are.
fn are_same(text: &TextBuf, same: &str, other: &TextBuf, alike: &str) -> bool
    ensures { result ≡ (bytes_eq text.now same.now && bytes_eq other.now alike.now) }
{
    if !is_same(text.as_str(), same) {
        return false;
    }
    is_same(other.as_str(), alike)
}

/// Whether each attribute among these events needs no prefix, or a namespace node among them binds
/// its own to its URI.
#[tactic(auto, unfolding(crate::specs::steps::Ordered::keep_among))]
fn keep_among(added: &[&Event]) -> bool
    ensures { result ≡ keep_among (lent added.now) (lent added.now) }
{
    for event in added {
        if !may_keep_among(added, *event) {
            return false;
        }
    }
    true
}

/// The same of one event: of any but an attribute it is so.
fn may_keep_among(added: &[&Event], event: &Event) -> bool
    ensures { result ≡ may_keep_among (lent added.now) event.now }
{
    match event {
        Event::Attr { name, .. } => keeps_among(added, name),
        Event::Start(_) => true,
        Event::Space { .. } => true,
        Event::Chars(_) => true,
        Event::End => true,
        Event::Comment(_) => true,
        Event::Pi { .. } => true,
    }
}

/// Whether an attribute needs no prefix, or a namespace node among these events binds its own to
/// its URI.
fn keeps_among(added: &[&Event], name: &Label) -> bool
    ensures { result ≡ keeps_among (lent added.now) name.now }
{
    if !needs_prefix(name) {
        return true;
    }
    if name.prefix().is_empty() {
        return false;
    }
    has_space(name.prefix(), name.uri(), added)
}

/// The bindings of the namespace nodes of a start tag that are new here, in their order.
#[tactic(auto, unfolding(crate::specs::Bindings::declared))]
pub(crate) fn new_spaces(
    scope: &Scope,
    alloc: Global,
    added: &[&Event],
) -> Result<Vec<Declared>, AllocError>
    ensures { IfOk result (λ all. bindings_of all.items
        ≡ declared (scope.now ++ outermost) (spaces_in (lent added.now))) }
{
    let mut all = Vec::new(alloc);
    for event in added {
        if !is_in_tag(*event) {
            return Ok(all);
        }
        push_space(scope, &mut all, *event)?;
    }
    Ok(all)
}

/// Adds the binding of a namespace node, if it is new here; no other event has one.
fn push_space(scope: &Scope, all: &mut Vec<Declared>, event: &Event) -> Result<(), AllocError>
    ensures { OnOk result ((more : List Binding) → bindings_of all.new.items
        ++ filter (is_new (scope.now ++ outermost)) more
        ≡ bindings_of all.old.items ++ filter (is_new (scope.now ++ outermost))
        (cons_option (space_of event.now) more)) }
{
    match event {
        Event::Space { prefix, uri } => scope.push_space(all, prefix, uri),
        Event::Attr { .. } => Ok(()),
        Event::Start(_) => Ok(()),
        Event::Chars(_) => Ok(()),
        Event::End => Ok(()),
        Event::Comment(_) => Ok(()),
        Event::Pi { .. } => Ok(()),
    }
}
