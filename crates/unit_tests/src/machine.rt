//! The machine of pieces and workers: a root and its child, on one worker and on two.

ghost use Rattle.std.specs.Prelude.{◌≤◌, IfOk};
ghost use Rattle.xs_core.specs.Facts.{AreFew};

use std::alloc::{AllocError, Global};
use xs_core::machine::Core;
use xs_core::piece::PieceFacts;
use xs_core::place::Place;
use xs_core::step::Step;

// The facts of a root with one tick and one hole, and of its child with none, the child first.
fn two_pieces(alloc: Global) -> Result<Vec<PieceFacts>, AllocError>
    ensures few { IfOk result (λ facts. AreFew facts.items) }
{
    let root = Place::root(alloc);
    let child = root.child(0)?;
    let mut facts = Vec::new(alloc);
    facts.push(PieceFacts {
        place: child,
        ticks: 0,
        holes: 0,
    })?;
    facts.push(PieceFacts {
        place: root,
        ticks: 1,
        holes: 1,
    })?;
    Ok(facts)
}

// Whether the machine has these places, in this order.
fn has_places(core: &Core, wanted: &[&[u64]]) -> Result<bool, AllocError> {
    let places = core.places()?;
    let mut left = wanted.iter();
    for place in &places {
        if left.next() != Some(&place.numbers()) {
            return Ok(false);
        }
    }
    Ok(left.next().is_none())
}

// Whether the machine answers so to each of some steps.
fn answers(core: &mut Core, steps: &[Step], wanted: bool) -> Result<bool, AllocError> {
    for step in steps {
        if core.apply(step)? != wanted {
            return Ok(false);
        }
    }
    Ok(true)
}

// Whether a machine allows some steps, refuses others after them, and has a root and its child.
fn takes(core: &mut Core, allowed: &[Step], refused: &[Step]) -> Result<bool, AllocError> {
    Ok(
        answers(core, allowed, true)?
            && answers(core, refused, false)?
            && has_places(core, &[&[], &[0]])?,
    )
}

// Whether the machine of a root and its child does so, with this many workers and this budget.
fn takes_steps(
    alloc: Global,
    workers: u32,
    budget: u64,
    allowed: &[Step],
    refused: &[Step],
) -> Result<bool, AllocError>
    requires workers { 1 ≤ workers }
{
    let facts = two_pieces(alloc)?;
    let made = Core::new(alloc, &facts, workers, budget);
    drop(facts);
    let mut core = made?;
    let taken = takes(&mut core, allowed, refused);
    drop(core);
    taken
}

#[test]
fn finishes_a_root_and_its_child(rt: HostRuntime) -> Result<(), AllocError> {
    let take = Step::Take { worker: 0 };
    let spend = Step::Spend {
        worker: 0,
        ticks: 1,
    };
    let give = Step::Give { worker: 0 };
    let finish = Step::Finish { worker: 0 };
    let allowed = [take, spend, give, finish, take, finish];
    let refused = [take, spend, give, finish, Step::Discard { worker: 0 }];
    assert!(rt; takes_steps(rt.alloc(), 1, 1, &allowed, &refused)?);
    Ok(())
}

#[test]
fn drops_above_the_budget(rt: HostRuntime) -> Result<(), AllocError> {
    let steal = Step::Steal {
        thief: 1,
        victim: 0,
    };
    let miss = Step::Miss {
        thief: 0,
        victim: 1,
    };
    let spend = Step::Spend {
        worker: 1,
        ticks: 1,
    };
    let discard = Step::Discard { worker: 1 };
    let give = Step::Give { worker: 1 };
    let allowed = [steal, miss, spend, give, discard, discard];
    let refused = [steal, discard, Step::Take { worker: 2 }];
    assert!(rt; takes_steps(rt.alloc(), 2, 0, &allowed, &refused)?);
    Ok(())
}
