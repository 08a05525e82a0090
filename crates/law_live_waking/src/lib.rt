//! A controller and its switch come to have met in a network (RFC 1987): from any world at rest, behind four beats in which no
//! greeting between the two is lost and nobody resets the node but its adjacency. So a node wakes, whatever the two knew of each other.
//!
//! `specs/Greetings` says what a network shows of the two: their sides, and the greetings that are on their way between them.
//! `specs/Law` has the statements of events: each is a turn of the two ends, as `law_live_meetings` has them, or nothing.
//! `specs/Beats` has those of beats: each is an exchange, and four of these are enough. There is no code that runs.
#![tactic(auto)]

ghost use Rattle.law_live_waking.specs.Law.{RunsGo, TicksAreTurns, CarriesAreTurns, PacketsAreNone};
ghost use Rattle.law_live_waking.specs.Beats.{BeatsAreExchanges, NodesWake};

/// An event of a network is a turn of the two ends of a node's control link, or nothing. It does nothing, and its contract is
/// the statements.
pub fn events_are_turns()
    ensures runs { RunsGo }
    ensures ticks { TicksAreTurns }
    ensures carries { CarriesAreTurns }
    ensures packets { PacketsAreNone }
{}

/// A beat is an exchange, and behind four of them a node's controller and its switch have met. It does nothing, and its contract is
/// the statements.
pub fn nodes_wake()
    ensures beats { BeatsAreExchanges }
    ensures wake { NodesWake }
{}
