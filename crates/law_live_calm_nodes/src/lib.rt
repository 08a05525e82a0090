//! A node that is at peace as a beat begins is at peace again behind it (RFC 1953, RFC 1987), and so is a whole network, beat by beat.
//!
//! `specs/Ports` has that ports which agree with their peers are up, so that no Delete All stands at their node (`proofs/Ports`).
//! `specs/Nodes` has one node: at rest it is at peace (`proofs/Resting`), since it hears in each beat the ACK that its switch says in
//! its tick (`proofs/Heard`, `proofs/Nodes`). `specs/Networks` has all nodes and links of a network together: each node and its
//! switch stay met, all ports stay up and no Delete All comes, through the ticks (`proofs/Control`) and from carry to carry
//! (`proofs/Links`); so a beat of such a network is one in peace for each link, as `law_live_peace` has it, and the network is in
//! peace again behind it (`proofs/Networks`). `proofs/Ticks` and `proofs/Parts` have whose turn it is to tick, and what an event
//! leaves of a node as it was. There is no code that runs.
#![tactic(auto)]

ghost use Rattle.law_live_calm_nodes.specs.Ports.{AgreedPortsAreUp, TicksKeepUp, UpNodesStandNone};
ghost use Rattle.law_live_calm_nodes.specs.Nodes.{NodesAtRestAreCalm, NodesHearTheirSwitches, NodesRestInPeace};
ghost use Rattle.law_live_calm_nodes.specs.Networks.{NetworksStayUp, NetworksRestInPeace, BeatsOfPeaceAreInPeace, PeaceLasts};

pub use law_live_peace::runs_are_whole;

/// Ports that agree with their peers are up, and no Delete All stands at their node. It does nothing, and its contract is the
/// statements.
pub fn ports_stay_up()
    ensures agreed { AgreedPortsAreUp }
    ensures ticks { TicksKeepUp }
    ensures desks { UpNodesStandNone }
{}

/// A node hears its switch in each beat, and is at peace behind it. It calls the law that it stands on, and its contract is the
/// statements.
pub fn nodes_rest_in_peace()
    ensures rest { NodesAtRestAreCalm }
    ensures hear { NodesHearTheirSwitches }
    ensures peace { NodesRestInPeace }
{
    runs_are_whole();
}

/// A network in peace stays so, beat by beat. It calls the law that it stands on, and its contract is the statements.
pub fn networks_stay_in_peace()
    ensures up { NetworksStayUp }
    ensures rest { NetworksRestInPeace }
    ensures beats { BeatsOfPeaceAreInPeace }
    ensures lasts { PeaceLasts }
{
    runs_are_whole();
}
