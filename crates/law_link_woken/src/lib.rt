//! The two ports of a link that have lost each other find the way back in every run (RFC 1953): behind four beats in peace at both of its
//! nodes, in which these wake, and four that are in peace at the link besides, they have met.
//!
//! `specs/Law` has the statement, of links as `live_model` says it, and `specs/Given` what it stands on: frames come in order, nodes that have
//! woken stay up, and ports go by their tables. `proofs/Events` has each event, and `proofs/Wake` the beats. There is no code that runs.
#![tactic(auto)]

ghost use Rattle.law_link_woken.specs.Law.{GivenWakesLinks};

pub use law_link_nodes::{
    carries_go_by_table, greetings_are_named, others_leave_ports, ports_go_by_address,
    resting_nodes_wake, runs_are_whole, woken_nodes_stay_met,
};
pub use law_link_numbers::numbers_keep_parties;
pub use law_link_orders::{runs_may_lead, unlost_frames_come_in_order};

/// Links wake in every run, given what is said of each event. It calls the law that it stands on, and its contract is the statement.
pub fn links_wake()
    ensures wake { GivenWakesLinks }
{
    runs_are_whole();
}
