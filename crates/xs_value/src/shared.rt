//! Fragments that are shared.

ghost use Rattle.std.specs.Prelude.{◌≡◌, IfOk};

use std::alloc::{AllocError, Global};
use std::marker::Model;
use std::sync::Arc;
use xs_trace::event::{Event, Fragment};

/// A fragment that is copied in constant time (XSLT 1.0, 11.1). Contracts see it as its events, in
/// order.
#[derive(Debug, Drop)]
pub struct SharedFragment {
    fragment: Arc<Fragment>,
}

impl Model for SharedFragment {
    ghost use Rattle.std.specs.Prelude.{List};
    ghost use Rattle.std.specs.Arc.{arc_value};
    ghost use Rattle.xs_trace.specs.declared.event.Event.{Event};

    ghost Value = { List Event };

    ghost view = { λ f. arc_value f.fragment };
}

impl SharedFragment {
    /// The events of a fragment.
    pub fn of(alloc: Global, fragment: Fragment) -> Result<SharedFragment, AllocError>
        ensures events { IfOk result (λ shared. shared ≡ fragment) }
    {
        Ok(SharedFragment {
            fragment: Arc::new(alloc, fragment)?,
        })
    }

    /// The events, in order.
    pub fn events(&self) -> &[Event]
        ensures events { result.now ≡ self.now }
    {
        self.fragment.events()
    }

    /// The same events, in constant time.
    pub fn copy(&self) -> Result<SharedFragment, AllocError>
        ensures events { IfOk result (λ copy. copy ≡ self.now) }
    {
        Ok(SharedFragment {
            fragment: Arc::try_clone(&self.fragment)?,
        })
    }
}
