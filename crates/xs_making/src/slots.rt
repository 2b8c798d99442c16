//! A table of items that are found by a hint and known by comparing them.
ghost use Rattle.std.specs.Prelude.{◌≡◌};

use std::alloc::{AllocError, Global};

/// How many slots are tried for one item.
pub(crate) const TRIED: usize = 8;

/// How many slots there are at first.
const FIRST: usize = 16;

/// Items in slots, each in one of those from its place on. Nothing is promised of what lies where:
/// who looks an item up compares it.
#[derive(Drop)]
pub(crate) struct Slots<T> {
    alloc: Global,
    /// Before the first item there is no slot; then there is a power of two of them.
    slots: Vec<Option<T>>,
    /// How many of them are taken.
    taken: usize,
}

impl<T: Drop> Slots<T> {
    /// With no item.
    pub(crate) fn new(alloc: Global) -> Slots<T> {
        Slots {
            alloc,
            slots: Vec::new(alloc),
            taken: 0,
        }
    }

    /// The item in a slot, so many after that of a place.
    pub(crate) fn at(&self, place: usize, step: usize) -> Option<&T> {
        match self.slots.get(self.slot_of(place, step)) {
            Some(Some(item)) => Some(item),
            Some(None) => None,
            None => None,
        }
    }

    /// Puts an item in the first free slot from its place on, or where none of those that are tried
    /// is free, in place of the first. At half of the slots all go, for twice as many.
    pub(crate) fn keep(&mut self, place: usize, item: T) -> Result<(), AllocError> {
        if self.taken >= self.slots.len() / 2 {
            self.grow()?;
        }
        let slot = self.free_slot(place);
        if let Some(kept) = self.slots.get_mut(slot) {
            if kept.is_none() {
                self.taken = self.taken.saturating_add(1);
            }
            *kept = Some(item);
        }
        Ok(())
    }

    /// The first free slot of those that are tried for a place, or the first of all.
    fn free_slot(&self, place: usize) -> usize {
        for step in 0..TRIED {
            let slot = self.slot_of(place, step);
            if let Some(None) = self.slots.get(slot) {
                return slot;
            }
        }
        self.slot_of(place, 0)
    }

    /// The number of a slot, so many after that of a place.
    fn slot_of(&self, place: usize, step: usize) -> usize {
        place.wrapping_add(step) & self.slots.len().wrapping_sub(1)
    }

    /// Twice as many slots, all free.
    fn grow(&mut self) -> Result<(), AllocError> {
        let count = match self.slots.len() {
            0 => FIRST,
            count => count.checked_mul(2).ok_or(AllocError)?,
        };
        let mut slots = Vec::with_capacity(self.alloc, count)?;
        for _ in 0..count {
            slots.push(None)?;
        }
        self.slots = slots;
        self.taken = 0;
        Ok(())
    }
}
