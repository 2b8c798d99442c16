//! Start tags that declare nothing: all that they bind is in force.
ghost use Rattle.std.specs.Prelude.{◌≡◌, ◌++◌, IfOk};
ghost use Rattle.xs_result_lines.specs.Bindings.{outermost};
ghost use Rattle.xs_result_lines.specs.steps.InForce.{are_plain, is_plain, is_plain_tag, keeps_own};

use crate::scope::Scope;
use crate::tag_bindings::{is_in_tag, needs_prefix};
use std::alloc::AllocError;
use xs_trace::event::{Event, Label};

/// Whether the start tag of an element declares nothing here, and its attributes keep their
/// prefixes.
pub(crate) fn is_plain_tag(
    scope: &Scope,
    name: &Label,
    behind: &[Event],
) -> Result<bool, AllocError>
    ensures { IfOk result (λ holds. holds
        ≡ is_plain_tag (scope.now ++ outermost) name.now behind.now) }
{
    if !scope.is_in_force(name.prefix(), name.uri())? {
        return Ok(false);
    }
    are_plain(scope, behind)
}

/// Whether nothing is declared for the events of a start tag.
#[tactic(auto, unfolding(crate::specs::steps::InForce::are_plain))]
fn are_plain(scope: &Scope, behind: &[Event]) -> Result<bool, AllocError>
    ensures { IfOk result (λ hold. hold ≡ are_plain (scope.now ++ outermost) behind.now) }
{
    let mut rest = behind;
    while let Some((event, more)) = rest.split_first() {
        if !is_in_tag(event) {
            return Ok(true);
        }
        if !is_plain(scope, event)? {
            return Ok(false);
        }
        rest = more;
    }
    Ok(true)
}

/// Whether nothing is declared for an event of a start tag.
pub(crate) fn is_plain(scope: &Scope, event: &Event) -> Result<bool, AllocError>
    ensures { IfOk result (λ holds. holds ≡ is_plain (scope.now ++ outermost) event.now) }
{
    match event {
        Event::Space { prefix, uri } => scope.has_space(prefix, uri),
        Event::Attr { name, .. } => keeps_own(scope, name),
        Event::Start(_) => Ok(true),
        Event::Chars(_) => Ok(true),
        Event::End => Ok(true),
        Event::Comment(_) => Ok(true),
        Event::Pi { .. } => Ok(true),
    }
}

/// Whether an attribute needs no prefix, or its own is bound to its URI.
fn keeps_own(scope: &Scope, name: &Label) -> Result<bool, AllocError>
    ensures { IfOk result (λ keeps. keeps ≡ keeps_own (scope.now ++ outermost) name.now) }
{
    if !needs_prefix(name) {
        return Ok(true);
    }
    if name.prefix().is_empty() {
        return Ok(false);
    }
    scope.is_in_force(name.prefix(), name.uri())
}
