//! How the queues of a network change.

ghost use Rattle.law_passing.specs.Law.{QueuesChangeByPassing, QueuesAreTheActors, SourcesGetNothing};

/// An event takes at most the cell at the head of one queue, and puts cells at the ends of queues: those
/// of the actor that it reaches, of which the queue that it takes from is none. It does nothing, and its
/// contract is the statement.
pub fn queues_change_by_passing()
    ensures change { QueuesChangeByPassing }
    ensures actors { QueuesAreTheActors }
    ensures sources { SourcesGetNothing }
{}
