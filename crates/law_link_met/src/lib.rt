//! The two ports of a link that have met stay so in peace (RFC 1953): behind one beat more than those in which they wake, as
//! `law_link_woken` has it, each has heard the other within the last beat, so that neither counts a silence; and all along another they are in
//! Estab, event by event.
//!
//! `specs/Law` has the statements. `proofs/Exchange` has two ends that have met before and behind an exchange, `proofs/Up` two that stay up along
//! the events of a beat, and `proofs/Lately` the last of the beats. There is no code that runs.
#![tactic(auto)]

ghost use Rattle.law_link_met.specs.Law.{GivenKeepsLinksMet, GivenKeepsLinksUp};

pub use law_link_woken::{
    carries_go_by_table, greetings_are_named, links_wake, numbers_keep_parties, others_leave_ports,
    ports_go_by_address, resting_nodes_wake, runs_are_whole, runs_may_lead,
    unlost_frames_come_in_order, woken_nodes_stay_met,
};

/// Links that have woken stay met in every run, and stay up all along a beat, given what is said of each event. It calls the law that it stands
/// on, and its contract is the statements.
pub fn woken_links_stay_met()
    ensures lately { GivenKeepsLinksMet }
    ensures up { GivenKeepsLinksUp }
{
    runs_are_whole();
}
