//! Laws of a list in order.

ghost use Rattle.std.specs.Cmp.{IsTotalOrder};
ghost use Rattle.std.specs.Prelude.{List};
ghost use Rattle.std.specs.declared.cmp.Ordering.{Ordering};
ghost use Rattle.xs_sort_order.specs.Laws.{OrderLaws};

/// A list in order by a total order: the same items, sorted, those that tie in their order; no
/// other list is so.
pub fn lists_in_order<X>()
    ensures { (cmp : X → X → Ordering) (xs : List X) → IsTotalOrder cmp → OrderLaws X cmp xs }
{}
