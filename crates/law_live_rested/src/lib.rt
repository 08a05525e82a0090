//! A node of a run is at rest where nothing is on its way between its controller and its switch (RFC 1987), and from there it wakes
//! behind four beats in peace, as `law_live_woken` has it.
//!
//! `specs/Law` has the statements. That both sides are such as the adjacency table leaves them holds behind any events
//! (`proofs/Worlds`). There is no code that runs.
#![tactic(auto)]

ghost use Rattle.law_live_rested.specs.Law.{RunsHaveSuchSides, StillNodesRest, StillNodesWake, NothingThatStandsFails, RequestsFailInEstab};

pub use law_live_woken::runs_are_whole;
use law_live_woken::runs_wake;

/// In every run both sides of a node know a peer just where their states say so, were silent no longer than the limit, and don't
/// wait to be cleared; so a node is at rest where nothing is on its way between the two. It does nothing, and its contract is the
/// statements.
pub fn nodes_rest()
    ensures sides { RunsHaveSuchSides }
    ensures rest { StillNodesRest }
{}

/// From there a node's controller and its switch have met behind four beats in peace. It calls the law that it stands on, and its
/// contract is the statement.
pub fn resting_nodes_wake()
    ensures wake { StillNodesWake }
{
    runs_wake();
}

/// No answer tells a failure where nothing stands at the desk of a node's controller, as while it isn't in Estab with its switch. It does
/// nothing, and its contract is the statements.
pub fn requests_fail_in_estab()
    ensures nothing { NothingThatStandsFails }
    ensures closed { RequestsFailInEstab }
{}
