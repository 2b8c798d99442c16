//! Scopes.

ghost use Rattle.std.specs.Prelude.{◌≡◌, IfOk};
ghost use Rattle.xs_body.specs.steps.Frames.{after, bound, captured_scope, inner, outer};
ghost use Rattle.xs_body.specs.steps.Frames.{over};

use crate::frames::Scope;
use std::alloc::AllocError;
use xs_body_spec::focus::Focus;
use xs_sheet::body::InstrKind;

impl Scope {
    /// Of a body inside another.
    pub(crate) fn inner(self) -> Scope
        ensures { result ≡ inner self }
    {
        Scope { own: 0, ..self }
    }

    /// Of a body inside another, at another focus.
    pub(crate) fn over(self, focus: Focus) -> Scope
        ensures { result ≡ over focus self }
    {
        Scope {
            focus,
            own: 0,
            ..self
        }
    }

    /// Of captured content.
    pub(crate) fn in_capture(self) -> Scope
        ensures { result ≡ captured_scope self }
    {
        self.over(self.focus.in_capture())
    }

    /// Of a template, which sees nothing from outside.
    pub(crate) fn outer(focus: Focus) -> Scope
        ensures { result ≡ outer focus }
    {
        Scope {
            focus,
            seen: 0,
            own: 0,
        }
    }

    /// Where a slot more is filled.
    pub(crate) fn bound(self) -> Result<Scope, AllocError>
        ensures { IfOk result (λ scope. scope ≡ bound self) }
    {
        let seen = self.seen.checked_add(1).ok_or(AllocError)?;
        let own = self.own.checked_add(1).ok_or(AllocError)?;
        Ok(Scope { seen, own, ..self })
    }

    /// Behind an instruction: a variable fills a slot.
    pub(crate) fn after(self, kind: &InstrKind) -> Result<Scope, AllocError>
        ensures { IfOk result (λ scope. scope ≡ after kind.now self) }
    {
        if let InstrKind::Variable(_) = kind {
            self.bound()
        } else {
            Ok(self)
        }
    }
}
