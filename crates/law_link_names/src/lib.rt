//! What greets a port of a link names it (RFC 1953): in a run in which no frame was forged nor passed its test by chance, each greeting
//! that comes to an end of a link, and isn't SYN, is to the address of that end's node.
//!
//! `specs/Law` has the statement. In each such run the cells that wait for a controller are in the words of its peer, as the line of a
//! label of the link shows them; `proofs/Shown` reads that off the line, and `proofs/Written` reads a greeting back as it was written.
//! There is no code that runs.
#![tactic(auto)]

ghost use Rattle.law_link_names.specs.Law.{GreetingsAreNamed};

pub use law_link_tables::{
    carries_go_by_table, others_leave_ports, resting_nodes_wake, runs_are_whole,
};

/// What greets a port names it. It does nothing, and its contract is the statement.
pub fn greetings_are_named()
    ensures named { GreetingsAreNamed }
{}
