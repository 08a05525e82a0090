//! Hop-by-hop routing in runs where no route changes: each fate that is recorded of a packet is its journey over the
//! routes that the topology gives its nodes, as if there were no flows, cells or labels.
//!
//! The statement is `AreJourneys` of `claims_model`, which holds whichever events come, forged frames among them. Where no change of a route
//! comes none waits, so in each world each node holds the routes that it was opened with (`proofs/Tables`); and a packet's
//! journey from a node is the journey, from the next node, of the packet that goes on (`proofs/Hops`). There is no code
//! that runs.
#![tactic(auto)]

ghost use Rattle.law_steady_routes.specs.Law.{FatesAreJourneys};

/// Where no route changes, and each fate is one that forwarding hop by hop can have made, each is the packet's journey over
/// the routes of the topology. It does nothing, and its contract is the statement.
pub fn fates_are_journeys()
    ensures journeys { FatesAreJourneys }
{}
