//! The facts of all pieces, found by place.

ghost use Rattle.std.specs.Prelude.{◌≡◌, IfOk, option_map};
ghost use Rattle.xs_core.specs.Facts.{AreFew, facts_of, find_facts};
ghost use Rattle.xs_core.specs.steps.Table.{IsPoint};

use crate::piece::PieceFacts;
use crate::place::{Place, compare_places};
use std::alloc::{AllocError, Global};
use std::marker::Model;

/// Facts, sorted by place. Contracts see the list of them.
#[derive(Drop)]
pub(crate) struct Table {
    pieces: Vec<PieceFacts>,
}

impl Model for Table {
    ghost use Rattle.std.specs.Prelude.{List};
    ghost use Rattle.xs_core.specs.declared.piece.PieceFacts.{PieceFacts};
    ghost use Rattle.xs_core.specs.steps.Table.{IsSorted};

    ghost Value = { List PieceFacts };

    ghost view = { λ t. t.pieces.items };

    ghost invariant = { λ t. IsSorted t.pieces.items };
}

impl Table {
    /// A table of these facts. Of two for one place the first counts.
    pub(crate) fn new(alloc: Global, facts: &[PieceFacts]) -> Result<Table, AllocError>
        ensures few { AreFew facts.now → IfOk result AreFew }
        ensures facts { IfOk result (λ t. (p : Place) → find_facts t p ≡ find_facts facts.now p) }
    {
        let mut pieces = copy_facts(alloc, facts)?;
        pieces.sort_by(|a, b| compare_places(&a.place, &b.place))?;
        Ok(Table { pieces })
    }

    /// How many ticks the piece at a place takes.
    pub(crate) fn ticks(&self, place: &Place) -> u64
        ensures ticks { result ≡ (facts_of self.now).ticks place.now }
    {
        match self.find(place) {
            None => 0,
            Some(piece) => piece.ticks,
        }
    }

    /// How many holes the piece at a place has.
    pub(crate) fn holes(&self, place: &Place) -> u64
        ensures holes { result ≡ (facts_of self.now).holes place.now }
    {
        match self.find(place) {
            None => 0,
            Some(piece) => piece.holes,
        }
    }

    /// The index of the first facts that are not of an earlier place, found by halving.
    fn point(&self, place: &Place) -> usize
        ensures point { IsPoint self.now place.now result }
    {
        let pieces = self.pieces.as_slice();
        pieces.partition_point(|x| compare_places(&x.place, place).is_lt())
    }

    /// The facts of a place.
    fn find(&self, place: &Place) -> Option<&PieceFacts>
        ensures found { option_map (λ x. x.now) result ≡ find_facts self.now place.now }
    {
        let Some(piece) = self.pieces.get(self.point(place)) else {
            return None;
        };
        if compare_places(&piece.place, place).is_eq() {
            return Some(piece);
        }
        None
    }
}

/// A second list of the same facts.
fn copy_facts(alloc: Global, facts: &[PieceFacts]) -> Result<Vec<PieceFacts>, AllocError>
    ensures facts { IfOk result (λ copies. copies.items ≡ facts.now) }
{
    let mut copies = Vec::with_capacity(alloc, facts.len())?;
    for piece in facts {
        copies.push(copy_piece(piece)?)?;
    }
    Ok(copies)
}

/// The same facts of one piece.
fn copy_piece(piece: &PieceFacts) -> Result<PieceFacts, AllocError>
    ensures facts { IfOk result (λ copy. copy ≡ piece.now) }
{
    Ok(PieceFacts {
        place: piece.place.copy()?,
        ticks: piece.ticks,
        holes: piece.holes,
    })
}
