//! The machine.

ghost use Rattle.std.specs.Prelude.{◌≡◌, ◌≤◌, IfOk};
ghost use Rattle.xs_core.specs.Answer.{Answers, IsNew, places_in};
ghost use Rattle.xs_core.specs.Facts.{AreFew, facts_of};
ghost use Rattle.xs_core.specs.Good.{IsGood};

use crate::facts::Table;
use crate::parts::Parts;
use crate::piece::PieceFacts;
use crate::place::Place;
use crate::step::Step;
use std::alloc::{AllocError, Global};
use std::marker::Model;

/// The machine of pieces and workers. Contracts see its facts, its budget and its state.
#[derive(Drop)]
pub struct Core {
    facts: Table,
    budget: u64,
    parts: Parts,
}

impl Model for Core {
    ghost use Rattle.xs_core.specs.Answer.{Machine};
    ghost use Rattle.xs_core.specs.Facts.{AreFew, facts_of};
    ghost use Rattle.xs_core.specs.Good.{IsGood};

    ghost Value = { Machine };

    ghost view = { λ c. record { facts = c.facts; budget = c.budget; state = c.parts } };

    ghost invariant = { λ c. IsGood (facts_of c.facts) c.budget c.parts × AreFew c.facts };
}

impl Core {
    /// A machine at the start: the root waits in the first worker's deque, and nothing is done.
    ///
    /// The facts may be in any order; of two for one place the first counts, and a place without
    /// facts has no ticks and no holes. All their ticks together are below 2^63.
    pub fn new(
        alloc: Global,
        facts: &[PieceFacts],
        workers: u32,
        budget: u64,
    ) -> Result<Core, AllocError>
        requires workers { 1 ≤ workers }
        requires few { AreFew facts.now }
        ensures new { IfOk result (λ core. IsNew facts.now workers budget core) }
    {
        Ok(Core {
            facts: Table::new(alloc, facts)?,
            budget,
            parts: Parts::new(alloc, workers)?,
        })
    }

    /// Takes a step. It answers false exactly where the machine does not allow the step, as for a
    /// worker that is not there, and then nothing has changed; nor has it out of memory.
    pub fn apply(&mut self, step: &Step) -> Result<bool, AllocError>
        ensures answer { Answers (facts_of self.old.facts) self.old.budget self.old.state step.now
            result self.new.state }
        ensures facts { self.new.facts ≡ self.old.facts }
        ensures budget { self.new.budget ≡ self.old.budget }
    {
        self.parts.apply(step, &self.facts, self.budget)
    }

    /// The places of all parts of the state: of each worker its deque and its hand, then what is
    /// finished, then what was dropped. The state is good, so no place comes twice.
    pub fn places(&self) -> Result<Vec<Place>, AllocError>
        ensures good { IsGood (facts_of self.now.facts) self.now.budget self.now.state }
        ensures places { IfOk result (λ places. places.items ≡ places_in self.now.state) }
    {
        self.parts.places()
    }
}
