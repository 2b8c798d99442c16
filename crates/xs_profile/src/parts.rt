//! How many ticks each part has.

ghost use Rattle.std.specs.Prelude.{◌≡◌, ◌+◌, ◌∷◌, [], IfOk, OnOk};
ghost use Rattle.xs_profile.specs.Counts.{is_before, ordered, part_of};
ghost use Rattle.xs_profile.specs.steps.Parts.{part_ticks};
ghost use Rattle.xs_profile.specs.steps.Table.{AreCounts, AreInOrder, sites_among, table_ticks};
ghost use Rattle.xs_trace.specs.declared.item.Site.{Site};

use crate::count::Count;
use crate::table::Table;
use std::alloc::{AllocError, Global};
use xs_trace::item::Site;

/// Starts in order, each once.
pub(crate) fn starts_of(alloc: Global, starts: &[Site]) -> Result<Vec<Count>, AllocError>
    ensures in_order { IfOk result (λ counts. AreInOrder counts.items) }
    ensures ordered { IfOk result (λ counts. sites_among counts.items ≡ ordered starts.now) }
{
    let mut table = Table::new(alloc);
    for start in starts {
        table.add(*start, 1)?;
    }
    table.counts()
}

/// How many ticks each part has, by the ticks of the places.
pub(crate) fn parts_of(
    alloc: Global,
    starts: &[Count],
    places: &[Count],
) -> Result<Vec<Count>, AllocError>
    requires starts { AreInOrder starts.now }
    ensures { IfOk result (λ counts.
        AreCounts (part_ticks (sites_among starts.now) places.now) counts.items) }
{
    let mut table = Table::new(alloc);
    for place in places {
        add_place(&mut table, starts, *place)?;
    }
    table.counts()
}

/// Adds the ticks of a place to its part, if it is in one.
fn add_place(table: &mut Table, starts: &[Count], place: Count) -> Result<(), AllocError>
    requires starts { AreInOrder starts.now }
    ensures { OnOk result ((s : Site) → table_ticks table.new.modules.items s
        ≡ table_ticks table.old.modules.items s
        + part_ticks (sites_among starts.now) (place ∷ []) s) }
{
    match part_of(starts, place.site) {
        Some(start) => table.add(start, place.ticks),
        None => Ok(()),
    }
}

/// The start of the part that a place is in, by halving.
fn part_of(starts: &[Count], site: Site) -> Option<Site>
    requires starts { AreInOrder starts.now }
    ensures { result ≡ part_of (sites_among starts.now) site }
{
    let count = starts.partition_point(|start| !is_before(site, start.site));
    if count == 0 {
        return None;
    }
    let start = starts[count - 1];
    if start.site.module == site.module {
        return Some(start.site);
    }
    None
}

/// Whether a place comes before another.
fn is_before(first: Site, second: Site) -> bool
    ensures { result ≡ is_before first second }
{
    if first.module == second.module {
        return first.line < second.line;
    }
    first.module < second.module
}
