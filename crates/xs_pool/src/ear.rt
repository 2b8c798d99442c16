//! What hears of pieces while a run lasts.

ghost use Rattle.std.specs.Prelude.{◌≡◌, true};
ghost use Rattle.xs_record.specs.Outcome.{is_done};

use std::alloc::AllocError;
use xs_core::place::Place;
use xs_record::outcome::Outcome;

/// Hears what pieces did, on the caller's thread. It tells nothing, and changes nothing that a
/// contract names; it may run out of memory.
pub trait Ear {
    /// Hears what the piece at a place did. It did not end in the total.
    fn hear(&mut self, place: &Place, outcome: &Outcome) -> Result<(), AllocError>
        requires done { is_done outcome.now.ended ≡ true };
}

/// An ear that nothing reaches.
#[derive(Drop)]
pub struct Deaf;

impl Ear for Deaf {
    // Does nothing.
    fn hear(&mut self, _place: &Place, _outcome: &Outcome) -> Result<(), AllocError> {
        Ok(())
    }
}
