//! What an ear hears of a run by several workers.

ghost use Rattle.std.specs.Prelude.{◌<◌, ◌≤◌};

use crate::pieces::{limits_of, run_heard, seven_pieces};
use crate::table::TableRunner;
use std::alloc::{AllocError, Global};
use std::thread::Threads;
use xs_core::place::{Claim, Place, compare_places};
use xs_outside::OpenGate;
use xs_pool::crew::Crew;
use xs_pool::ear::Ear;
use xs_record::outcome::Outcome;

/// An ear that lists the places of which it hears.
#[derive(Drop)]
struct Listing {
    places: Vec<Place>,
}

impl Ear for Listing {
    // Adds the place.
    fn hear(&mut self, place: &Place, _outcome: &Outcome) -> Result<(), AllocError> {
        let place = place.copy()?;
        self.places.push(place)?;
        Ok(())
    }
}

// Whether the place of a claim is among these.
fn is_among(places: &[Place], claim: &Claim) -> bool {
    places
        .iter()
        .any(|place| compare_places(place, &claim.place).is_eq())
}

// Whether each piece of a run by so many workers is heard of once. No piece is claimed twice, so
// the places are the claims' where there are as many, and each claim's is among them.
fn are_heard<X: Threads + Sync>(
    rt: &X,
    alloc: Global,
    runner: &TableRunner,
    count: u32,
) -> Result<bool, AllocError>
    requires count { (0 < count) × (count ≤ 64) }
{
    let mut ear = Listing {
        places: Vec::new(alloc),
    };
    let crew = Crew {
        alloc,
        runner,
        gate: &OpenGate,
        limits: limits_of(100),
        count,
    };
    let run = run_heard(rt, &crew, &mut ear)?;
    Ok(
        run.claims.len() == ear.places.len()
            && run.claims.iter().all(|claim| is_among(&ear.places, claim)),
    )
}

#[test]
fn each_piece_is_heard_of_once(rt: HostRuntime) -> Result<(), AllocError> {
    let runner = seven_pieces(rt.alloc())?;
    let one = are_heard(&rt, rt.alloc(), &runner, 1);
    let three = are_heard(&rt, rt.alloc(), &runner, 3);
    drop(runner);
    assert!(rt; one? && three?);
    Ok(())
}
