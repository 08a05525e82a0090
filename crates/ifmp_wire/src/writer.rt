//! From a message to its octets.

ghost use Rattle.std.specs.Prelude.{◌≡◌, ◌+◌, ◌-◌, ◌<◌, ◌≤◌, ◌∷◌, ◌++◌, length, drop};
ghost use Rattle.std.specs.Int.{w16, to_be_bytes};
ghost use Rattle.octet_fields.specs.Fields.{written};
ghost use Rattle.ipv4_packet.specs.Packet.{internet_sum_of};
ghost use Rattle.ipv4_packet.specs.Identifier.{identifier};
ghost use Rattle.ifmp_wire.specs.Message.{InRange, IsLabel, octets_of, op_code, names_of, with_names, rest_of, without_checksum, body, label_octets, hello_code, flow_octets, flow_type as type_of, flow_words as words_of};

use crate::message::{Message, Names};
use ipv4_packet::{FlowId, FlowKind, internet_sum};
use net_types::{Channel, HelloKind};
use octet_fields::{put_octets, put_u16, put_u32};

/// Writes the message to the front of `out` and gives its length in octets: 20, 24, 36 or 40.
pub fn encode(message: &Message, out: &mut [u8]) -> usize
    requires range { InRange message.now }
    requires room { length (octets_of message.now) ≤ length out.old }
    ensures written { out.new ≡ octets_of message.now ++ drop result out.old }
    ensures len { result ≡ length (octets_of message.now) }
{
    let size = write_without_checksum(message, out);
    write_checksum(&mut out[..size]);
    size
}

/// Writes the checksum over the field, which is 0.
fn write_checksum(message: &mut [u8])
    requires head { 4 ≤ length message.old }
    requires small { length message.old ≤ 40 }
    ensures { message.new ≡ written message.old 2 (to_be_bytes w16 (65535 - internet_sum_of message.old)) }
{
    let sum = internet_sum(message);
    put_u16(message, 2, 0xffff - sum);
}

/// Writes the message with its checksum field 0.
fn write_without_checksum(message: &Message, out: &mut [u8]) -> usize
    requires range { InRange message.now }
    requires room { length (octets_of message.now) ≤ length out.old }
    ensures written { out.new ≡ without_checksum (op_code message.now) (body message.now) ++ drop result out.old }
    ensures len { result ≡ length (octets_of message.now) }
{
    write_names(op_code(message), &message.names(), out);
    16 + write_rest(message, &mut out[16..])
}

/// The op code.
fn op_code(message: &Message) -> u8
    ensures { result ≡ op_code message.now }
{
    match *message {
        Message::Adjacency(hello) => code_of(hello.kind),
        Message::Redirect { .. } => 4,
        Message::Reclaim { .. } => 5,
        Message::ReclaimAck { .. } => 6,
        Message::LabelRange { .. } => 7,
        Message::Error { .. } => 8,
    }
}

/// The op code of an adjacency message.
fn code_of(kind: HelloKind) -> u8
    ensures { result ≡ hello_code kind }
{
    match kind {
        HelloKind::Syn => 0,
        HelloKind::Synack => 1,
        HelloKind::Rstack => 2,
        HelloKind::Ack => 3,
    }
}

/// Writes the first 16 octets.
fn write_names(op: u8, names: &Names, out: &mut [u8])
    requires { 16 ≤ length out.old }
    ensures { out.new ≡ without_checksum op (with_names names.now (drop 16 out.old)) }
{
    put_octets(out, 0, &[1, op, 0, 0]);
    put_u32(out, 4, names.sender.0);
    put_u32(out, 8, names.peer.0);
    put_u32(out, 12, names.number);
}

/// Writes what stands behind them.
fn write_rest(message: &Message, out: &mut [u8]) -> usize
    requires range { InRange message.now }
    requires room { length (rest_of message.now) ≤ length out.old }
    ensures written { out.new ≡ rest_of message.now ++ drop result out.old }
    ensures len { result ≡ length (rest_of message.now) }
{
    match *message {
        Message::Adjacency(hello) => {
            put_u32(out, 0, hello.next);
            4
        }
        Message::Redirect {
            lifetime,
            label,
            flow,
            ..
        } => write_flow(lifetime, label, &flow, out),
        Message::Reclaim { label, flow, .. } => write_flow(0, label, &flow, out),
        Message::ReclaimAck { label, flow, .. } => write_flow(0, label, &flow, out),
        Message::LabelRange {
            least,
            greatest,
            ..
        } => {
            put_label(out, 0, least);
            put_label(out, 4, greatest);
            8
        }
        Message::Error { code, label, .. } => {
            put_octets(out, 0, &[code, 0, 0, 0]);
            put_label(out, 4, label);
            8
        }
    }
}

/// Writes a label.
fn put_label(out: &mut [u8], place: usize, label: Channel)
    requires label { IsLabel label }
    requires room { place + 4 ≤ length out.old }
    ensures { out.new ≡ written out.old place (label_octets label) }
{
    put_octets(out, place, &[0, label.vpi as u8]);
    put_u16(out, place + 2, label.vci);
}

/// Writes what a message says of a label and its flow; zero stands in place of a lifetime.
fn write_flow(lifetime: u16, label: Channel, flow: &FlowId, out: &mut [u8]) -> usize
    requires label { IsLabel label }
    requires room { 8 + length (identifier flow.now) ≤ length out.old }
    ensures written { out.new ≡ flow_octets lifetime label flow.now ++ drop result out.old }
    ensures len { result ≡ 8 + length (identifier flow.now) }
{
    write_label(flow.kind(), lifetime, label, out);
    8 + ipv4_packet::write_identifier(flow, &mut out[8..])
}

/// Writes what stands there before the identifier.
fn write_label(kind: FlowKind, lifetime: u16, label: Channel, out: &mut [u8])
    requires label { IsLabel label }
    requires room { 8 ≤ length out.old }
    ensures { out.new ≡ written out.old 0 (type_of kind ∷ words_of kind ∷ (to_be_bytes w16 lifetime ++ label_octets label)) }
{
    let (flow_type, words) = match kind {
        FlowKind::One => (1, 4),
        FlowKind::Two => (2, 3),
    };
    put_octets(out, 0, &[flow_type, words]);
    put_u16(out, 2, lifetime);
    put_label(out, 4, label);
}
