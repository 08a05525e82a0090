//! Greetings between two ends that have met (RFC 1953, RFC 1987): the ACK that one says at a tick begins the silence count of
//! the other anew, and is answered by nothing; so both go on as they are. A port that hears one knows which number its
//! peer expects, and does nothing else where no label waits for that.
//!
//! `specs/Law` has the statements. There is no code that runs.
#![tactic(auto)]

ghost use Rattle.law_live_greetings.specs.Law.{NeighboursAreHeard, SwitchesAreHeard, PortsHearAcks};

/// What a greeting makes of an end that has met its peer. It does nothing, and its contract is the statements.
pub fn greetings_are_heard()
    ensures neighbours { NeighboursAreHeard }
    ensures switches { SwitchesAreHeard }
    ensures ports { PortsHearAcks }
{}
