//! All that the machine holds: the workers, what is finished and what was dropped.

ghost use Rattle.std.specs.Prelude.{◌≡◌, ◌++◌, ◌-◌, ◌≤◌, ◌==◌, [], None, Some};
ghost use Rattle.std.specs.Prelude.{IfOk, OnOk, nat_lt, slice_get, if◌then◌else◌};
ghost use Rattle.xs_core.specs.Answer.{places_in};
ghost use Rattle.xs_core.specs.Facts.{AreFew, facts_of};
ghost use Rattle.xs_core.specs.Good.{IsGood};
ghost use Rattle.xs_core.specs.Machine.{idle, opening};
ghost use Rattle.xs_core.specs.steps.Parts.{Changes, IsChanged, IsPopped};
ghost use Rattle.xs_core.specs.steps.Parts.{is_empty_at, is_free_at, is_idle_at};
ghost use Rattle.xs_core.specs.steps.Stepped.{at_worker, done, gave, let_go, missed, put};
ghost use Rattle.xs_core.specs.steps.Stepped.{put_dropped, put_finished, put_total, spent};
ghost use Rattle.xs_core.specs.steps.Stepped.{stepped, stolen, took};

use crate::facts::Table;
use crate::piece::Progress;
use crate::place::Place;
use crate::places::{copy_dropped, copy_places, copy_seats};
use crate::seat::Seat;
use crate::step::Step;
use std::alloc::{AllocError, Global};
use std::marker::Model;

/// The workers, the finished places, the dropped pieces, and how many ticks were spent.
#[derive(Drop)]
pub(crate) struct Parts {
    seats: Vec<Seat>,
    finished: Vec<Place>,
    dropped: Vec<Progress>,
    total: u64,
}

impl Model for Parts {
    ghost use Rattle.xs_core.specs.Machine.{State};

    ghost Value = { State };

    ghost view = { λ p. record {
      workers = p.seats.items;
      finished = p.finished.items;
      dropped = p.dropped.items;
      total = p.total;
    } };
}

impl Parts {
    /// The start: the root's place is in the deque of the first worker.
    pub(crate) fn new(alloc: Global, workers: u32) -> Result<Parts, AllocError>
        requires some { 1 ≤ workers }
        ensures opening { IfOk result (λ parts. parts ≡ opening (workers - 1)) }
    {
        let mut first = Seat::new(alloc);
        first.push(Place::root(alloc))?;
        let mut seats = Vec::new(alloc);
        seats.push(first)?;
        add_idle(alloc, &mut seats, workers - 1)?;
        Ok(Parts {
            seats,
            finished: Vec::new(alloc),
            dropped: Vec::new(alloc),
            total: 0,
        })
    }

    /// Takes a step, where the machine allows it. Out of memory, nothing has changed.
    pub(crate) fn apply(
        &mut self,
        step: &Step,
        facts: &Table,
        budget: u64,
    ) -> Result<bool, AllocError>
        requires good { IsGood (facts_of facts.now) budget self.old }
        requires few { AreFew facts.now }
        ensures applied { Changes (stepped (facts_of facts.now) budget step.now self.old)
            result self.old self.new }
    {
        match *step {
            Step::Take { worker } => Ok(self.take(worker as usize)),
            Step::Steal { thief, victim } => Ok(self.steal(thief as usize, victim as usize)),
            Step::Miss { thief, victim } => Ok(self.misses(thief as usize, victim as usize)),
            Step::Give { worker } => self.give(worker as usize, facts),
            Step::Spend { worker, ticks } => {
                Ok(self.spend(worker as usize, ticks, facts, budget))
            }
            Step::Finish { worker } => self.finish(worker as usize, facts),
            Step::Discard { worker } => self.discard(worker as usize, budget),
        }
    }

    /// The last place of a worker's deque goes to its hand, where that is empty.
    fn take(&mut self, worker: usize) -> bool
        ensures taken { IsChanged (at_worker (slice_get self.old.workers worker)
            (λ x. put worker self.old (took x.hand x.deque)))
            result self.old self.new }
    {
        if worker >= self.seats.len() {
            return false;
        }
        self.seats[worker].take()
    }

    /// The first place of another worker's deque goes to a hand, where that worker has nothing.
    fn steal(&mut self, thief: usize, victim: usize) -> bool
        ensures stolen { IsChanged (if thief == victim then None
            else at_worker (slice_get self.old.workers thief)
            (λ x. at_worker (slice_get self.old.workers victim)
            (λ y. stolen thief victim self.old x.hand x.deque y.hand y.deque)))
            result self.old self.new }
    {
        if thief == victim {
            return false;
        }
        if !self.is_idle(thief) {
            return false;
        }
        let Some(place) = self.pop(victim) else {
            return false;
        };
        self.seats[thief].hold(place);
        true
    }

    /// Whether a worker whose hand is empty finds the deque of another one empty.
    fn misses(&self, thief: usize, victim: usize) -> bool
        ensures missed { IsChanged (if thief == victim then None
            else at_worker (slice_get self.now.workers thief)
            (λ x. at_worker (slice_get self.now.workers victim)
            (λ y. missed self.now x.hand y.deque)))
            result self.now self.now }
    {
        if thief == victim {
            return false;
        }
        if !self.is_free(thief) {
            return false;
        }
        self.is_empty(victim)
    }

    /// The last child that the piece in a worker's hand has not given goes to the end of its deque.
    fn give(&mut self, worker: usize, facts: &Table) -> Result<bool, AllocError>
        ensures given { Changes (at_worker (slice_get self.old.workers worker)
            (λ x. put worker self.old (gave (facts_of facts.now) x.hand x.deque)))
            result self.old self.new }
    {
        if worker >= self.seats.len() {
            return Ok(false);
        }
        self.seats[worker].give(facts)
    }

    /// Ticks are spent on the piece in a worker's hand.
    fn spend(&mut self, worker: usize, ticks: u64, facts: &Table, budget: u64) -> bool
        requires good { IsGood (facts_of facts.now) budget self.old }
        requires few { AreFew facts.now }
        ensures spent { IsChanged (at_worker (slice_get self.old.workers worker)
            (λ x. put_total ticks (put worker self.old
            (spent (facts_of facts.now) ticks x.hand x.deque))))
            result self.old self.new }
    {
        if worker >= self.seats.len() {
            return false;
        }
        if !self.seats[worker].spend(ticks, facts) {
            return false;
        }
        self.total += ticks;
        true
    }

    /// The piece in a worker's hand is finished, if it is done.
    fn finish(&mut self, worker: usize, facts: &Table) -> Result<bool, AllocError>
        ensures finished { Changes (at_worker (slice_get self.old.workers worker)
            (λ x. put_finished worker x.deque self.old (done (facts_of facts.now) x.hand)))
            result self.old self.new }
    {
        if worker >= self.seats.len() {
            return Ok(false);
        }
        self.finished.reserve(1)?;
        let Some(piece) = self.seats[worker].finish(facts) else {
            return Ok(false);
        };
        self.finished.push_reserved(piece.place);
        Ok(true)
    }

    /// Above the budget, a worker drops the piece in its hand, or else the first of its deque.
    fn discard(&mut self, worker: usize, budget: u64) -> Result<bool, AllocError>
        ensures dropped { Changes (if nat_lt budget self.old.total
            then at_worker (slice_get self.old.workers worker)
            (λ x. put_dropped worker self.old (let_go x.hand x.deque)) else None)
            result self.old self.new }
    {
        if self.total <= budget {
            return Ok(false);
        }
        if worker >= self.seats.len() {
            return Ok(false);
        }
        self.dropped.reserve(1)?;
        let Some(piece) = self.seats[worker].let_go() else {
            return Ok(false);
        };
        self.dropped.push_reserved(piece);
        Ok(true)
    }

    /// Takes the first place out of a worker's deque.
    fn pop(&mut self, worker: usize) -> Option<Place>
        ensures popped { IsPopped worker (slice_get self.old.workers worker) self.old
            result self.new }
    {
        if worker >= self.seats.len() {
            return None;
        }
        self.seats[worker].pop()
    }

    /// Whether there is such a worker, and it has nothing.
    fn is_idle(&self, worker: usize) -> bool
        ensures idle { result ≡ is_idle_at (slice_get self.now.workers worker) }
    {
        match self.seats.get(worker) {
            None => false,
            Some(seat) => seat.is_idle(),
        }
    }

    /// Whether there is such a worker, and its hand is empty.
    fn is_free(&self, worker: usize) -> bool
        ensures free { result ≡ is_free_at (slice_get self.now.workers worker) }
    {
        match self.seats.get(worker) {
            None => false,
            Some(seat) => seat.is_free(),
        }
    }

    /// Whether there is such a worker, and its deque is empty.
    fn is_empty(&self, worker: usize) -> bool
        ensures empty { result ≡ is_empty_at (slice_get self.now.workers worker) }
    {
        match self.seats.get(worker) {
            None => false,
            Some(seat) => seat.is_empty(),
        }
    }

    /// The places of all its parts.
    pub(crate) fn places(&self) -> Result<Vec<Place>, AllocError>
        ensures places { IfOk result (λ places. places.items ≡ places_in self.now) }
    {
        let mut places = Vec::new(*self.finished.allocator());
        copy_seats(&self.seats, &mut places)?;
        copy_places(&self.finished, &mut places)?;
        copy_dropped(&self.dropped, &mut places)?;
        Ok(places)
    }
}

/// Appends so many workers that have nothing.
fn add_idle(alloc: Global, seats: &mut Vec<Seat>, others: u32) -> Result<(), AllocError>
    ensures seats { OnOk result (seats.new.items ≡ seats.old.items ++ idle others) }
{
    for _other in 0..others {
        seats.push(Seat::new(alloc))?;
    }
    Ok(())
}
