//! A node whose controller and switch have met isn't reset in beats in peace (RFC 1987): each of the two stays in Estab, under the party
//! that it has, in each world of these beats. A node that has woken behind four beats in peace has heard lately, and stays so too.
//!
//! `specs/Law` has the statements, and `specs/Runs` what a run gives of its ports. `proofs/Acks` has the two ends of an adjacency that say nothing but ACKs, `proofs/Lately` why ends that have
//! come to meet have heard one another lately, and `proofs/Beats` the beats of a network. There is no code that runs.
#![tactic(auto)]

ghost use Rattle.law_link_nodes.specs.Law.{NodesStayMet, RunsStayMet, WokenNodesStayMet};
ghost use Rattle.law_link_nodes.specs.Runs.{PortsGoByAddress, NodesSendByLabels, LabelsHoldPackets};

pub use law_link_names::{
    carries_go_by_table, greetings_are_named, others_leave_ports, resting_nodes_wake,
    runs_are_whole,
};

/// A node that has met stays met in beats in peace. It does nothing, and its contract is the statement.
pub fn nodes_stay_met()
    ensures stay { NodesStayMet }
{}

/// So it is in every run before the first frame that was forged or passes its test by chance, and behind the four beats in which a node
/// wakes. It calls the law that it stands on, and its contract is the statements.
pub fn woken_nodes_stay_met()
    ensures runs { RunsStayMet }
    ensures woken { WokenNodesStayMet }
{
    runs_are_whole();
}

/// What a run gives of a port besides: it goes by its node's address, its grants are of labels, and what comes under its labels are packets
/// that may be sent on. It does nothing, and its contract is the statements.
pub fn ports_go_by_address()
    ensures addresses { PortsGoByAddress }
    ensures labels { NodesSendByLabels }
    ensures packets { LabelsHoldPackets }
{}
