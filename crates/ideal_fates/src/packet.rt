//! The record of one packet.

ghost use Rattle.std.specs.Prelude.{◌≡◌, None, length};
ghost use Rattle.ipv4_packet.specs.Packet.{IsPacket};
ghost use Rattle.world_model.specs.Packets.{inject_refusal};
ghost use Rattle.world_model.specs.Conditions.{IsNode, IsTopology};
ghost use Rattle.script_model.specs.Ideal.{ideal_record};

use crate::hops::{Ending, journey};
use crate::tables::Tables;
use ipv4_packet::{IFMP_PROTOCOL, check, protocol};
use link_model::{Record, Refusal};
use net_types::{NodeId, Octets};
use refusal_names::packet_refusal;
use topology::Topology;

/// Why a packet isn't sent, if it isn't.
fn send_refusal(packet: &[u8]) -> Option<Refusal>
    ensures refusal { result ≡ inject_refusal packet.now }
    ensures packet { result ≡ None → IsPacket packet.now }
{
    match check(packet) {
        Err(fault) => Some(packet_refusal(fault)),
        Ok(()) => {
            if protocol(packet) == IFMP_PROTOCOL {
                Some(Refusal::ControlProtocol)
            } else {
                None
            }
        }
    }
}

/// The record of the packet with this number, which a node is given to send.
pub fn packet_record(
    topology: &Topology,
    tables: &Tables,
    number: u32,
    node: NodeId,
    octets: Octets,
) -> Record
    requires topology { IsTopology topology.now }
    requires node { IsNode topology.now node }
    requires tables { length tables.now ≡ length topology.now.nodes }
    ensures { result ≡ ideal_record topology.now tables.now number node octets (inject_refusal octets) }
{
    if let Some(name) = send_refusal(octets.as_slice()) {
        return Record::Refused {
            node,
            packet: number,
            name,
        };
    }
    let mut packet = octets.into_vec();
    match journey(topology, tables, node, packet.as_mut_slice()) {
        Ending::Delivered(at) => Record::Delivered {
            node: at,
            packet: number,
            octets: Octets::new(packet),
        },
        Ending::Dropped(at, cause) => Record::Dropped {
            node: at,
            packet: number,
            cause,
        },
    }
}
