//! The two ports of a link wake in every run (RFC 1953), as `law_link_woken` has it, and stay met, as `law_link_met` has it, given what is asked
//! of each event: and all of that holds. Where numbers are left for what a port may say, it keeps its party at its node's ticks, and as a cell
//! is carried to its controller, unless its table resets it: what `law_link_numbers` has of a controller, of worlds.
//!
//! `proofs/Cells` has a cell that ends a frame which acts, and `proofs/Carries` the carry; the statements are those of
//! `law_link_woken`'s `specs/Given`. There is no code that runs.
#![tactic(auto)]

ghost use Rattle.law_link_parties.specs.Law.{CarriesKeepTheirs, Given, RunsKeepLinksMet, RunsKeepLinksUp, RunsWakeLinks, TicksKeepTheirs};

pub use law_link_met::{resting_nodes_wake, runs_are_whole, woken_nodes_stay_met};
use law_link_met::{
    carries_go_by_table, greetings_are_named, links_wake, numbers_keep_parties, others_leave_ports,
    ports_go_by_address, runs_may_lead, unlost_frames_come_in_order, woken_links_stay_met,
};

/// Where numbers are left, ticks and carries leave a port its party. It does nothing, and its contract is the statements.
pub fn ports_keep_theirs()
    ensures ticks { TicksKeepTheirs }
    ensures carries { CarriesKeepTheirs }
{}

/// All that is asked of each event at an end of a link holds in a run. It calls the laws that it stands on, and its contract is the statement.
pub fn links_are_given()
    ensures given { Given }
{
    unlost_frames_come_in_order();
    runs_may_lead();
    woken_nodes_stay_met();
    ports_go_by_address();
    carries_go_by_table();
    others_leave_ports();
    numbers_keep_parties();
    ports_keep_theirs();
    greetings_are_named();
}

/// In every run the two ports of a link have met behind four beats in peace at both its nodes and four that are in peace at the link besides.
/// It calls the laws that it stands on, and its contract is the statement.
pub fn runs_wake_links()
    ensures wake { RunsWakeLinks }
{
    links_are_given();
    links_wake();
}

/// Behind one beat more in peace they have met still, and each has heard the other within it; and all along another both are in Estab. It calls
/// the laws that it stands on, and its contract is the statements.
pub fn runs_keep_links_met()
    ensures lately { RunsKeepLinksMet }
    ensures up { RunsKeepLinksUp }
{
    links_are_given();
    woken_links_stay_met();
}
