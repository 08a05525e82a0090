//! A tick of a port at peace (RFC 1953): one that heard its peer, whose labels are all offered and joined or in use, and
//! whose grants have two ticks left at least. It greets its peer, sends REDIRECTs again that are due, and nothing else: no
//! label is recalled, no grant ends, no join is taken back, and the port isn't reset.
//!
//! `specs/Law` has the statement: what such a tick leaves, whole. Lifetimes are taken one grant after another
//! (`proofs/Grants`), and labels one after another (`proofs/Labels`). There is no code that runs.
#![tactic(auto)]

ghost use Rattle.law_live_ticks.specs.Law.{PortsTickOn};

/// What a tick leaves of a port at peace. It does nothing, and its contract is the statement.
pub fn ports_tick_on()
    ensures left { PortsTickOn }
{}
