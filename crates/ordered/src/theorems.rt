//! Theorems, each the contract of a function that does nothing else.
ghost use Rattle.ordered.specs.Theorems.{FreedPlaceUsed, FullByCount, OrderLaws, SortedInsertion};

/// Equality in an order is a congruence, and the order is transitive.
pub fn order_laws_stand<T>()
    ensures { OrderLaws T }
{}

/// Sorted insertion gives the one strictly ascending list of the records with the new one.
pub fn sorted_insertion_stands<T>()
    ensures { SortedInsertion T }
{}

/// After a record is taken out, any record that is not equal in the order to one that is left is accepted.
pub fn freed_place_stands<T>()
    ensures { FreedPlaceUsed T }
{}

/// Full means as many records as places.
pub fn full_by_count_stands<T>()
    ensures { FullByCount T }
{}
