//! A worker's seat: its deque and its hand.

ghost use Rattle.std.specs.Prelude.{◌≡◌, ◌++◌, ◌∷◌, [], None, Some, is_none};
ghost use Rattle.std.specs.Prelude.{OnErr, OnOk};
ghost use Rattle.xs_core.specs.Answer.{place_in};
ghost use Rattle.xs_core.specs.Facts.{facts_of};
ghost use Rattle.xs_core.specs.Machine.{worker, fresh};
ghost use Rattle.xs_core.specs.steps.Parts.{Changes, IsChanged, IsFirst, IsLetGo};
ghost use Rattle.xs_core.specs.steps.Parts.{has_nothing, is_empty, lifted};
ghost use Rattle.xs_core.specs.steps.Parts.{with_given, with_spent};
ghost use Rattle.xs_core.specs.steps.Stepped.{done, gave, let_go, spent, took};

use crate::facts::Table;
use crate::piece::Progress;
use crate::place::Place;
use crate::places::copy_places;
use std::alloc::{AllocError, Global};
use std::collections::VecDeque;
use std::marker::Model;

/// The places in a worker's deque, and the piece in its hand.
#[derive(Drop)]
pub(crate) struct Seat {
    deque: VecDeque<Place>,
    hand: Option<Progress>,
}

impl Model for Seat {
    ghost use Rattle.xs_core.specs.Machine.{Worker, worker};

    ghost Value = { Worker };

    ghost view = { λ s. worker s.deque.items s.hand };
}

/// A piece of which nothing is done.
fn fresh(place: Place) -> Progress
    ensures piece { result ≡ fresh place }
{
    Progress {
        place,
        spent: 0,
        given: 0,
    }
}

impl Seat {
    /// A worker that has nothing. It takes no memory.
    pub(crate) fn new(alloc: Global) -> Seat
        ensures idle { result ≡ worker [] None }
    {
        Seat {
            deque: VecDeque::new(alloc),
            hand: None,
        }
    }

    /// Puts a place at the end of the deque.
    pub(crate) fn push(&mut self, place: Place) -> Result<(), AllocError>
        ensures pushed { OnOk result
            (self.new ≡ worker (self.old.deque ++ place ∷ []) self.old.hand) }
        ensures refused { OnErr result (self.new ≡ self.old) }
    {
        self.deque.push_back(place)?;
        Ok(())
    }

    /// Whether the hand is empty.
    pub(crate) fn is_free(&self) -> bool
        ensures free { result ≡ is_none self.now.hand }
    {
        self.hand.is_none()
    }

    /// Whether no place waits in the deque.
    pub(crate) fn is_empty(&self) -> bool
        ensures empty { result ≡ is_empty self.now.deque }
    {
        self.deque.is_empty()
    }

    /// Whether it has nothing at all.
    pub(crate) fn is_idle(&self) -> bool
        ensures idle { result ≡ has_nothing self.now.hand self.now.deque }
    {
        if self.hand.is_some() {
            return false;
        }
        self.is_empty()
    }

    /// Takes the first place out of the deque.
    pub(crate) fn pop(&mut self) -> Option<Place>
        ensures first { IsFirst self.old.deque result self.new.deque }
        ensures hand { self.new.hand ≡ self.old.hand }
    {
        self.deque.pop_front()
    }

    /// Takes a place into the hand.
    pub(crate) fn hold(&mut self, place: Place)
        ensures held { self.new ≡ worker self.old.deque (Some (fresh place)) }
    {
        self.hand = Some(fresh(place));
    }

    /// Takes the last place of the deque into the hand, where that is empty.
    pub(crate) fn take(&mut self) -> bool
        ensures taken { IsChanged (took self.old.hand self.old.deque) result self.old self.new }
    {
        if self.hand.is_some() {
            return false;
        }
        let Some(place) = self.deque.pop_back() else {
            return false;
        };
        self.hold(place);
        true
    }

    /// Puts the last child that the piece in the hand has not given at the end of the deque, if one
    /// is left.
    pub(crate) fn give(&mut self, facts: &Table) -> Result<bool, AllocError>
        ensures given { Changes (gave (facts_of facts.now) self.old.hand self.old.deque)
            result self.old self.new }
    {
        let Some(piece) = self.hand.as_ref() else {
            return Ok(false);
        };
        let given = piece.given;
        let holes = facts.holes(&piece.place);
        if given >= holes {
            return Ok(false);
        }
        let child = piece.place.child(holes - (given + 1))?;
        self.push(child)?;
        self.set_given(given + 1);
        Ok(true)
    }

    /// Spends ticks on the piece in the hand, if it takes so many.
    pub(crate) fn spend(&mut self, ticks: u64, facts: &Table) -> bool
        ensures spent { IsChanged (spent (facts_of facts.now) ticks self.old.hand self.old.deque)
            result self.old self.new }
    {
        let Some(piece) = self.hand.as_ref() else {
            return false;
        };
        let most = facts.ticks(&piece.place);
        let Some(spent) = piece.spent.checked_add(ticks) else {
            return false;
        };
        if spent > most {
            return false;
        }
        self.set_spent(spent);
        true
    }

    /// Takes the piece out of the hand, if it is done.
    pub(crate) fn finish(&mut self, facts: &Table) -> Option<Progress>
        ensures finished { IsLetGo
            (lifted self.old.deque (done (facts_of facts.now) self.old.hand))
            result self.old self.new }
    {
        let piece = self.hand.as_ref()?;
        if piece.spent != facts.ticks(&piece.place) {
            return None;
        }
        if piece.given != facts.holes(&piece.place) {
            return None;
        }
        self.hand.take()
    }

    /// Takes the piece out of the hand, or else the first place out of the deque.
    pub(crate) fn let_go(&mut self) -> Option<Progress>
        ensures gone { IsLetGo (let_go self.old.hand self.old.deque) result self.old self.new }
    {
        if self.hand.is_some() {
            return self.hand.take();
        }
        let place = self.deque.pop_front()?;
        Some(fresh(place))
    }

    /// Appends copies of its places: those of the deque, and then that of the hand.
    pub(crate) fn copy_into(&self, places: &mut Vec<Place>) -> Result<(), AllocError>
        ensures places { OnOk result (places.new.items
            ≡ places.old.items ++ (self.now.deque ++ place_in self.now.hand)) }
    {
        let (front, back) = self.deque.as_slices();
        copy_places(front, places)?;
        copy_places(back, places)?;
        if let Some(piece) = self.hand.as_ref() {
            places.push(piece.place.copy()?)?;
        }
        Ok(())
    }

    /// Sets how many children the piece in the hand has given.
    fn set_given(&mut self, given: u64)
        ensures given { self.new ≡ worker self.old.deque (with_given given self.old.hand) }
    {
        self.hand = match self.hand.take() {
            None => None,
            Some(piece) => Some(Progress {
                place: piece.place,
                spent: piece.spent,
                given,
            }),
        };
    }

    /// Sets how many ticks were spent on the piece in the hand.
    fn set_spent(&mut self, spent: u64)
        ensures spent { self.new ≡ worker self.old.deque (with_spent spent self.old.hand) }
    {
        self.hand = match self.hand.take() {
            None => None,
            Some(piece) => Some(Progress {
                place: piece.place,
                spent,
                given: piece.given,
            }),
        };
    }
}
