//! Copies of the places that are in the machine.

ghost use Rattle.std.specs.Prelude.{◌≡◌, ◌++◌, OnOk, map};
ghost use Rattle.std.specs.List.{flat_map};
ghost use Rattle.xs_core.specs.Answer.{place_in};
ghost use Rattle.xs_core.specs.Machine.{Worker};

use crate::piece::Progress;
use crate::place::Place;
use crate::seat::Seat;
use std::alloc::AllocError;

/// Appends copies of the places that workers have.
pub(crate) fn copy_seats(seats: &[Seat], places: &mut Vec<Place>) -> Result<(), AllocError>
    ensures places { OnOk result (places.new.items
        ≡ places.old.items ++ flat_map (λ (w : Worker). w.deque ++ place_in w.hand) seats.now) }
{
    for seat in seats {
        seat.copy_into(places)?;
    }
    Ok(())
}

/// Appends copies of places.
pub(crate) fn copy_places(places: &[Place], copies: &mut Vec<Place>) -> Result<(), AllocError>
    ensures copies { OnOk result (copies.new.items ≡ copies.old.items ++ places.now) }
{
    for place in places {
        copies.push(place.copy()?)?;
    }
    Ok(())
}

/// Appends copies of the places of pieces.
pub(crate) fn copy_dropped(dropped: &[Progress], places: &mut Vec<Place>) -> Result<(), AllocError>
    ensures places { OnOk result (places.new.items
        ≡ places.old.items ++ map (λ h. h.place) dropped.now) }
{
    for piece in dropped {
        places.push(piece.place.copy()?)?;
    }
    Ok(())
}
