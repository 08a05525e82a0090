//! A tick of a controller at peace: it greets its switch and the peer of each port, sends REDIRECTs again that are due, and
//! tries joins; nothing is asked and nobody is reset.
//!
//! `specs/Law` has the statement: which messages are sent, in their order, and what becomes of the ports. Each port ticks as
//! `law_live_ticks` says of one (`proofs/Ports`). There is no code that runs.
#![tactic(auto)]

ghost use Rattle.law_live_nodes.specs.Law.{NodesTickOn};

/// What a tick leaves of a controller at peace, up to the joins that it tries. It does nothing, and its contract is the
/// statement.
pub fn nodes_tick_on()
    ensures left { NodesTickOn }
{}
