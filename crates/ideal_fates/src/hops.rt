//! The journey of one packet, hop by hop.

ghost use Rattle.std.specs.Prelude.{◌≡◌, length};
ghost use Rattle.ipv4_packet.specs.Packet.{IsPacket};
ghost use Rattle.world_model.specs.Conditions.{IsNode, IsTopology};
ghost use Rattle.world_model.specs.Journey.{journey};
ghost use Rattle.script_model.specs.State.{table_among};
ghost use Rattle.ideal_fates.specs.Endings.{ending_told, Hops};

use crate::tables::Tables;
use ipv4_forward::{Hop, hop};
use link_model::DropCause;
use net_types::NodeId;
use topology::Topology;

/// The final disposition of a packet (its fate): where its hop-by-hop path ends, and how. This
/// project's own.
#[derive(Clone, Copy, Debug, PartialEq, Eq)]
pub enum Ending {
    /// The node is its destination.
    Delivered(NodeId),
    /// The node drops it.
    Dropped(NodeId, DropCause),
}

/// One hop: the node that the packet comes to, or its journey's end.
fn hop_from(
    topology: &Topology,
    tables: &Tables,
    node: NodeId,
    packet: &mut [u8],
) -> Result<NodeId, Ending>
    requires topology { IsTopology topology.now }
    requires node { IsNode topology.now node }
    requires tables { length tables.now ≡ length topology.now.nodes }
    requires packet { IsPacket packet.old }
    ensures { Hops topology.now (table_among tables.now) node packet.old packet.new result }
{
    match hop(tables.of(node), packet) {
        Hop::Here => Err(Ending::Delivered(node)),
        Hop::NoRoute => Err(Ending::Dropped(node, DropCause::NoRoute)),
        Hop::Expired => Err(Ending::Dropped(node, DropCause::Expired)),
        Hop::On(port) => match topology.peer_of(node, port) {
            Some((far, _)) => Ok(far),
            None => Err(Ending::Dropped(node, DropCause::NoRoute)),
        },
    }
}

/// The journey of a packet from a node, over a table for each node: by the best route of its
/// destination at each, with one less to live behind each link, until it is delivered, or dropped for
/// want of a route, or since its Time To Live ends (RFC 1812 5.2.1, 5.3.1). A packet that is delivered
/// stands in `packet` as it comes to its destination.
pub fn journey(topology: &Topology, tables: &Tables, node: NodeId, packet: &mut [u8]) -> Ending
    requires topology { IsTopology topology.now }
    requires node { IsNode topology.now node }
    requires tables { length tables.now ≡ length topology.now.nodes }
    requires packet { IsPacket packet.old }
    ensures { ending_told result packet.new ≡ journey topology.now (table_among tables.now) node packet.old }
{
    let mut here = node;
    loop {
        match hop_from(topology, tables, here, packet) {
            Ok(far) => here = far,
            Err(ending) => return ending,
        }
    }
}
