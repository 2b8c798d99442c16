//! Laws of sorting.

ghost use Rattle.xs_sort.specs.Laws.{UnsortedLaw};

/// Without a sort key nodes stay as they are.
pub fn unsorted()
    ensures { UnsortedLaw }
{}
