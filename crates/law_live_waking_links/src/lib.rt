//! The two ports of a link come to have met in a network (RFC 1953), where each goes by its table: from any world at rest, behind
//! four beats in which no greeting between the two is lost and as each of which ends neither waits to be cleared.
//!
//! `specs/Hellos` says what a network shows of the two: their sides, and the greetings that are on their way between them.
//! `specs/Law` has the statements of events: each is turns of the two ends, as `law_live_meetings` has them, or nothing.
//! `specs/Beats` has those of beats: each is an exchange, and four of these are enough. There is no code that runs.
#![tactic(auto)]

ghost use Rattle.law_live_waking_links.specs.Law.{TicksAreTurns, CarriesAreTurns, PacketsAreTurns};
ghost use Rattle.law_live_waking_links.specs.Beats.{BeatsAreExchanges, LinksWake};

/// An event of a network is turns of the two ports of a link, or nothing. It does nothing, and its contract is the statements.
pub fn events_are_turns()
    ensures ticks { TicksAreTurns }
    ensures carries { CarriesAreTurns }
    ensures packets { PacketsAreTurns }
{}

/// A beat is an exchange, and behind four of them the two ports of a link have met. It does nothing, and its contract is the
/// statements.
pub fn links_wake()
    ensures beats { BeatsAreExchanges }
    ensures wake { LinksWake }
{}
