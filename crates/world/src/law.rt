//! What a carry of an empty queue is.

ghost use Rattle.world.specs.Empty.{EmptyCarriesCount};

/// A carry of an empty queue changes the number of events and nothing else, in any world. It does
/// nothing, and its contract is the statement.
pub fn empty_carries_count()
    ensures { EmptyCarriesCount }
{}
