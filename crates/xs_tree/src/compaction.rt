//! Leaving items out of a list, in place.

ghost use Rattle.std.specs.Prelude.{◌≡◌, get_or, length};
ghost use Rattle.xs_tree.specs.steps.Compaction.{AreNewPlaces, HaveMoved, IsCompacted, end_after};
ghost use Rattle.xs_tree.specs.steps.Compaction.{entry_after, same};

use crate::entries::Entry;

/// Leaves out the entries that have no new place of their own, and renumbers the parents and the
/// ends of the others.
pub fn compact_entries(entries: &mut Vec<Entry>, places: &[u32])
    requires places { AreNewPlaces places.now (length entries.old.items) }
    ensures compacted { IsCompacted
        (entry_after places.now (get_or places.now (length entries.old.items) 0))
        places.now entries.old.items entries.new.items }
{
    let count = move_entries(entries, places);
    entries.truncate(count as usize);
}

/// Leaves out the numbers that have no new place of their own.
pub fn compact_numbers(numbers: &mut Vec<u32>, places: &[u32])
    requires places { AreNewPlaces places.now (length numbers.old.items) }
    ensures compacted { IsCompacted same places.now numbers.old.items numbers.new.items }
{
    let count = move_numbers(numbers, places);
    numbers.truncate(count as usize);
}

// Moves each entry to its new place, over those that are left out, and renumbers it. Answers how
// many are not left out.
fn move_entries(entries: &mut [Entry], places: &[u32]) -> u32
    requires places { AreNewPlaces places.now (length entries.old) }
    ensures count { result ≡ get_or places.now (length entries.old) 0 }
    ensures moved { HaveMoved
        (entry_after places.now (get_or places.now (length entries.old) 0))
        places.now entries.old entries.new (length entries.old) }
{
    let count = places[entries.len()];
    for place in 0..entries.len() {
        entries[places[place] as usize] = renumbered(places, count, entries[place]);
    }
    count
}

// Moves each number to its new place, over those that are left out. Answers how many are not left
// out.
fn move_numbers(numbers: &mut [u32], places: &[u32]) -> u32
    requires places { AreNewPlaces places.now (length numbers.old) }
    ensures count { result ≡ get_or places.now (length numbers.old) 0 }
    ensures moved { HaveMoved same places.now numbers.old numbers.new (length numbers.old) }
{
    for place in 0..numbers.len() {
        numbers[places[place] as usize] = numbers[place];
    }
    places[numbers.len()]
}

// An entry whose parent and end have new places, in a tree of so many nodes.
fn renumbered(places: &[u32], count: u32, entry: Entry) -> Entry
    ensures { result ≡ entry_after places.now count entry }
{
    Entry {
        parent: place_after(places, entry.parent),
        end: end_after(count, place_after(places, entry.end)),
        ..entry
    }
}

// The new place of an item, and 0 past the end.
fn place_after(places: &[u32], place: u32) -> u32
    ensures { result ≡ get_or places.now place 0 }
{
    if (place as usize) < places.len() {
        places[place as usize]
    } else {
        0
    }
}

// The end of a subtree as an entry keeps it: 0 where the node is open now.
fn end_after(count: u32, place: u32) -> u32
    ensures { result ≡ end_after count place }
{
    if place == count { 0 } else { place }
}
