//! A port of a node that is up with its switch goes by the table of its adjacency (RFC 1953) at whatever its controller hears of others, as
//! `law_live_waking_links` asks of it and `law_live_tables` has it of ticks and of what the switch says: a greeting of its peer is a step of
//! the table, and all else leaves the port as it is, but that it may hear its peer, and says no greeting.
//!
//! `specs/Law` has the statements of a controller. `proofs/Greeted` has the port that hears a message of its peer, and `proofs/Frames` what
//! comes for others, packets that are sent on, and those that enter. `specs/Events` has a carry in a network (`proofs/Cells`,
//! `proofs/Carries`), where the parties that a greeting names can be written in 32 bits each (`proofs/Written`). There is no code that runs.
#![tactic(auto)]

ghost use Rattle.law_link_tables.specs.Events.{CarriesGoByTable};
ghost use Rattle.law_link_tables.specs.Law.{GreetingsAreSteps, OtherFramesLeavePorts, EntriesLeavePorts};

pub use law_live_woken_links::{resting_nodes_wake, runs_are_whole};

/// A greeting that its peer says is a step of the port's table. It does nothing, and its contract is the statement.
pub fn greetings_are_steps()
    ensures steps { GreetingsAreSteps }
{}

/// Whatever else comes to a controller, and a packet that enters, leaves the port as its table knows it. It does nothing, and its contract
/// is the statements.
pub fn others_leave_ports()
    ensures frames { OtherFramesLeavePorts }
    ensures entries { EntriesLeavePorts }
{}

/// So in a network a carry to the controller at an end of a link makes the port go by its table. It does nothing, and its contract is the
/// statement.
pub fn carries_go_by_table()
    ensures carries { CarriesGoByTable }
{}
