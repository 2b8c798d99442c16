//! The profile of a run.

ghost use Rattle.std.specs.Prelude.{◌≡◌, IfOk};
ghost use Rattle.xs_profile.specs.Counts.{by_part, by_place, site_at};
ghost use Rattle.xs_profile.specs.Sites.{sites_in};
ghost use Rattle.xs_record.specs.Segment.{items_of};

use crate::count::Count;
use crate::parts::{parts_of, starts_of};
use crate::search::site_at;
use crate::table::table_of;
use std::alloc::{AllocError, Global};
use std::marker::Model;
use xs_block::chain::Chain;
use xs_record::segment::Segment;
use xs_trace::item::Site;

/// Where the ticks of a run went. Contracts see the places of all ticks in order, and the starts.
#[derive(Drop)]
pub struct Profile<'a> {
    items: &'a Chain<Segment>,
    starts: &'a [Site],
    places: Vec<Count>,
    parts: Vec<Count>,
}

impl<'a> Model for Profile<'a> {
    ghost use Rattle.std.specs.Prelude.{◌≡◌};
    ghost use Rattle.xs_profile.specs.Counts.{Profiled, by_part, by_place};
    ghost use Rattle.xs_profile.specs.Sites.{sites_in};
    ghost use Rattle.xs_record.specs.Segment.{items_of};

    ghost Value = { Profiled };

    ghost view = { λ p. record {
      sites = sites_in (items_of p.items.now);
      starts = p.starts.now;
    } };

    ghost invariant = { λ p. (p.places.items ≡ by_place (sites_in (items_of p.items.now)))
        × (p.parts.items ≡ by_part p.starts.now (sites_in (items_of p.items.now))) };
}

impl<'a> Profile<'a> {
    /// That of the items of a run, whose parts have these starts, in whatever order.
    pub fn new(
        alloc: Global,
        items: &'a Chain<Segment>,
        starts: &'a [Site],
    ) -> Result<Profile<'a>, AllocError>
        ensures of { IfOk result (λ profile. profile ≡ record {
          sites = sites_in (items_of items.now);
          starts = starts.now;
        }) }
    {
        let table = table_of(alloc, items)?;
        let places = table.counts()?;
        let ordered = starts_of(alloc, starts)?;
        let parts = parts_of(alloc, ordered.as_slice(), places.as_slice())?;
        Ok(Profile {
            items,
            starts,
            places,
            parts,
        })
    }

    /// The place of the tick of a number, from 1 on; none where there is no such tick.
    pub fn at(&self, n: u64) -> Option<Site>
        ensures place { result ≡ site_at n self.now.sites }
    {
        site_at(self.items, n)
    }

    /// Each place that has a tick, and how many it has, in the order of places.
    pub fn by_place(&self) -> &[Count]
        ensures counts { result.now ≡ by_place self.now.sites }
    {
        self.places.as_slice()
    }

    /// Each start whose part has a tick, and how many it has, in the order of places.
    pub fn by_part(&self) -> &[Count]
        ensures counts { result.now ≡ by_part self.now.starts self.now.sites }
    {
        self.parts.as_slice()
    }
}
