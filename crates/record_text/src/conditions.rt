//! Which records have a line; for tests and claims alone.

ghost use Rattle.std.specs.Prelude.{◌≡◌, ◌↔◌, IsTrue};
ghost use Rattle.ipv4_packet.specs.Flow.{IsFlow};
ghost use Rattle.script_model.specs.Records.{has_node, has_port, is_label, has_label, has_place, HasLine};

use ipv4_packet::FlowId;
use link_model::Record;
use net_types::{LAST_PORT, NodeId, Place, PortNo, is_label_number, numbered_channel};
use topology::Topology;

fn has_node(names: &Topology, node: NodeId) -> bool
    ensures { result ≡ has_node names.now node }
{
    node.0 > 0 && node.0 as usize <= names.nodes()
}

fn has_port(names: &Topology, node: NodeId, port: PortNo) -> bool
    ensures { result ≡ has_port names.now node port }
{
    has_node(names, node) && 0 < port.0 && port.0 <= LAST_PORT
}

/// Whether the number is that of a label of the script's version.
fn is_label(names: &Topology, label: u16) -> bool
    ensures { result ≡ is_label names.now label }
{
    is_label_number(label) && numbered_channel(label).vpi < u16::from(names.vpis())
}

fn has_label(names: &Topology, node: NodeId, port: PortNo, label: u16) -> bool
    ensures { result ≡ has_label names.now node port label }
{
    has_port(names, node, port) && is_label(names, label)
}

fn has_place(names: &Topology, place: Place) -> bool
    ensures { result ≡ has_place names.now place }
{
    match place {
        Place::Down(node) | Place::Up(node) => has_node(names, node),
        Place::Out(node, port) => has_node(names, node) && names.peer_of(node, port).is_some(),
    }
}

/// Whether packets can be of this flow.
fn is_flow(flow: &FlowId) -> bool
    ensures { IsTrue result ↔ IsFlow flow.now }
{
    match flow {
        FlowId::One { ttl, protocol, .. } => *ttl > 0 && (*protocol == 6 || *protocol == 17),
        FlowId::Two { ttl, .. } => *ttl > 0,
    }
}

/// Whether a record has a line: its nodes and queues are the topology's, its ports 1 to 8, its labels
/// those of the script's version; a delivered packet has octets, and some packet can be of a flow.
pub fn has_line(names: &Topology, item: &Record) -> bool
    ensures { IsTrue result ↔ HasLine names.now item.now }
{
    match item {
        Record::Delivered { node, octets, .. } => {
            has_node(names, *node) && octets.as_slice().len() > 0
        }
        Record::Dropped { node, .. }
        | Record::Refused { node, .. }
        | Record::Bad { node, .. }
        | Record::Routes { node, .. } => has_node(names, *node),
        Record::Loss { .. } | Record::Chance { .. } => true,
        Record::Opened { node, port } | Record::Closed { node, port } => {
            has_port(names, *node, *port)
        }
        Record::Bind {
            node,
            port,
            vci,
            flow,
        } => has_label(names, *node, *port, *vci) && is_flow(flow),
        Record::Free { node, port, vci } | Record::Part { node, port, vci } => {
            has_label(names, *node, *port, *vci)
        }
        Record::Join {
            node,
            port,
            vci,
            to_port,
            to_vci,
        } => has_label(names, *node, *port, *vci) && has_label(names, *node, *to_port, *to_vci),
        Record::Forged { place } => has_place(names, *place),
    }
}
