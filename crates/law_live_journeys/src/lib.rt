//! A packet goes its way hop by hop (RFC 1812 5.2.1): where it comes to a controller, the frame that holds it with one less to live
//! is put whole into the queue to the switch, on the default channel of the port to which its route leads, unless a grant is held
//! there under which it would be sent; so it is heard by the controller at the other end of the link before the links are empty,
//! and so at each node of its way by the tables, and it is delivered at the last.
//!
//! `specs/Law` has the statements of one event: a packet that enters, and one that is heard. What a controller sends is
//! followed here (`proofs/Sending`), and that what it does besides loses none of it (`proofs/Later`). `specs/Hops` has the
//! statement of one link, in a run before the first frame that was forged or passes its test by chance: what is made stays, and
//! the ledger only grows (`proofs/Runs`). `specs/Journeys` has that of a way, where no route changes (`proofs/Tables`), and
//! `specs/Counts` that of all packets of a flow. There is no code that runs.
#![tactic(auto)]

ghost use Rattle.law_live_journeys.specs.Counts.{FlowsGoOn, PacketsAreCounted};
ghost use Rattle.law_live_journeys.specs.Hops.{HopsAreHeard};
ghost use Rattle.law_live_journeys.specs.Journeys.{PacketsGoTheirWay, PortsWithoutGrants, TablesStay, UngrantedWaysAreGone};
ghost use Rattle.law_live_journeys.specs.Law.{BroughtPacketsAreDelivered, BroughtPacketsAreHeard, BroughtPacketsForward, EntriesAreDelivered, EntriesFindSlots, EntriesForward};

pub use law_live_carried_out::runs_are_whole;

/// A packet that enters at a node goes on by its route, or is delivered. It does nothing, and its contract is the statements.
pub fn entries_forward()
    ensures forward { EntriesForward }
    ensures slots { EntriesFindSlots }
    ensures delivered { EntriesAreDelivered }
{}

/// A packet that a controller is brought is heard, and goes on by its route, or is delivered. It does nothing, and its contract is
/// the statements.
pub fn heard_packets_forward()
    ensures heard { BroughtPacketsAreHeard }
    ensures forward { BroughtPacketsForward }
    ensures delivered { BroughtPacketsAreDelivered }
{}

/// In a run a packet that goes on is heard at the other end of the link. It calls the law that it stands on, and its contract is
/// the statement.
pub fn hops_are_heard()
    ensures hops { HopsAreHeard }
{
    runs_are_whole();
}

/// In a stretch of a run in which no route changes a packet is heard along its way, and delivered. It calls the law that it stands
/// on, and its contract is the statements.
pub fn packets_go_their_way()
    ensures tables { TablesStay }
    ensures ungranted { UngrantedWaysAreGone }
    ensures no_grants { PortsWithoutGrants }
    ensures way { PacketsGoTheirWay }
{
    runs_are_whole();
}

/// As many packets of a flow as are sent are heard at each end of their way. It calls the law that it stands on, and its contract
/// is the statements.
pub fn packets_are_counted()
    ensures flows { FlowsGoOn }
    ensures counted { PacketsAreCounted }
{
    runs_are_whole();
}
