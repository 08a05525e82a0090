//! What the words of a record's line say, where it is read: for tests and claims alone.

ghost use Rattle.std.specs.Prelude.{◌≡◌};
ghost use Rattle.record_text.specs.Forms.{port_of, mark_of, channel_label, label_of, queue_of_port, queue_behind, place_of, flow_by, flow_of};
ghost use Rattle.ipv4_packet.specs.Identifier.{first_fault};

use ipv4_packet::{FlowId, FlowKind};
use lab_text::read_number;
use net_types::{CONTROL_PORT, Channel, LAST_PORT, Mark, NodeId, Place, PortNo, label_number};
use topology::Topology;
use word_forms::{long_number, number_in, split_at_sign};

pub(crate) fn read_port(word: &[u8]) -> Option<PortNo>
    ensures { result ≡ port_of word.now }
{
    let number = number_in(word, CONTROL_PORT.0 as u32, LAST_PORT as u32)?;
    Some(PortNo(number as u8))
}

pub(crate) fn read_mark(word: &[u8]) -> Option<Mark>
    ensures { result ≡ mark_of word.now }
{
    let (packet, frame) = split_at_sign(word, b'.')?;
    let packet = read_number(packet)?;
    let frame = long_number(frame)?;
    Some(Mark { packet, frame })
}

/// The label of a VPI, a slash and a VCI.
fn read_channel_label(word: &[u8]) -> Option<u16>
    ensures { result ≡ channel_label word.now }
{
    let (vpi, vci) = split_at_sign(word, b'/')?;
    let vpi = number_in(vpi, 0, 255)?;
    let vci = number_in(vci, 0, 65535)?;
    label_number(Channel {
        vpi: vpi as u16,
        vci: vci as u16,
    })
}

/// A label by its number, or in version 2 by its VPI and VCI.
pub(crate) fn read_label(names: &Topology, word: &[u8]) -> Option<u16>
    ensures { result ≡ label_of names.now word.now }
{
    if names.version() == 2 {
        return read_channel_label(word);
    }
    let number = number_in(word, 0, 65535)?;
    Some(number as u16)
}

fn queue_of_port(node: NodeId, port: PortNo) -> Place
    ensures { result ≡ queue_of_port node port }
{
    if port == CONTROL_PORT {
        Place::Up(node)
    } else {
        Place::Out(node, port)
    }
}

/// The queue of a node that is written so behind its name.
fn queue_behind(node: NodeId, word: &[u8]) -> Option<Place>
    ensures { result ≡ queue_behind node word.now }
{
    if word == "c".as_bytes() {
        return Some(Place::Down(node));
    }
    let port = read_port(word)?;
    Some(queue_of_port(node, port))
}

/// A queue: its node's name, a colon, and which of the node's queues it is.
pub(crate) fn read_place(names: &Topology, word: &[u8]) -> Option<Place>
    ensures { result ≡ place_of names.now word.now }
{
    let (name, queue) = split_at_sign(word, b':')?;
    let node = names.node_of(name)?;
    queue_behind(node, queue)
}

/// The flow of this kind that octets identify.
fn read_flow_of(kind: FlowKind, octets: &[u8]) -> Option<FlowId>
    ensures { result ≡ flow_by kind octets.now (first_fault kind octets.now) }
{
    match ipv4_packet::read_identifier(kind, octets) {
        Ok(flow) => Some(flow),
        Err(_fault) => None,
    }
}

/// The flow that octets identify: of type 1 by 16 octets, and else of type 2.
pub(crate) fn read_flow(octets: &[u8]) -> Option<FlowId>
    ensures { result ≡ flow_of octets.now }
{
    if octets.len() == 16 {
        read_flow_of(FlowKind::One, octets)
    } else {
        read_flow_of(FlowKind::Two, octets)
    }
}
