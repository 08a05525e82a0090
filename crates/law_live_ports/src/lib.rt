//! What a tick of a node at peace leaves of each of its ports, as the other end of the port's link sees it (RFC 1953; joins are
//! this project's own): what the port's own tick leaves, as `law_live_ticks` has it. The joins that are tried behind it,
//! where transaction numbers are left for them, change nothing that the other end sees.
//!
//! `specs/Law` has the statements. A rule that asks and says nothing leaves all other ports (`proofs/Keeping`), and so do the joins
//! that are tried, one after another (`proofs/Joining`). There is no code that runs.
#![tactic(auto)]

ghost use Rattle.law_live_ports.specs.Law.{PortsAreLeft, AddressesStay};

/// What a tick of a node at peace leaves of its ports, as their peers see it. It does nothing, and its contract is the
/// statements.
pub fn ports_are_left()
    ensures left { PortsAreLeft }
    ensures addresses { AddressesStay }
{}
