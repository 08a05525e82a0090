//! Labelled frames (after RFC 1954; the layout is this project's own). Total Length, Identification,
//! Flags and Fragment Offset are those of the packet. Checksum is the canonical checksum of its
//! header with Time To Live zero, so that the payload stays the same at each router.
//!
//! | Type 1, octets | Content | Type 2, octets | Content |
//! |---|---|---|---|
//! | | | 0 | 0 |
//! | | | 1 | Type of Service |
//! | 0 to 1 | Total Length | 2 to 3 | Total Length |
//! | 2 to 3 | Identification | 4 to 5 | Identification |
//! | 4 to 5 | Flags, Fragment Offset | 6 to 7 | Flags, Fragment Offset |
//! | | | 8 | 0 |
//! | | | 9 | Protocol |
//! | 6 to 7 | Checksum | 10 to 11 | Checksum |
//! | 8 on | the packet from octet 24 on | 12 on | the packet from octet 20 on |

ghost use Rattle.std.specs.Prelude.{◌≡◌, ℕ, List, ◌+◌, ◌<◌, ◌≤◌, ◌++◌, length, take, drop, Some, None, Ok, IfOk, OnOk, OnErr};
ghost use Rattle.std.specs.Result.{result_err};
ghost use Rattle.ipv4_packet.specs.Packet.{IsPacket, canonical};
ghost use Rattle.ipv4_packet.specs.Flow.{IsFlow, kind_of, flow_of};
ghost use Rattle.ipv4_packet.specs.Identifier.{FitsFields};
ghost use Rattle.flow_encaps.specs.Labelled.{checksum_at_ttl_zero as zero_ttl_checksum, labelled_payload, Carries, rebuilt, layout_fault, said_checksum as checksum_said, unwrap_fault, head_size as size_of_head, left_out, HasLayout};

use crate::default::EncapsFault;
use ipv4_packet::{FlowId, FlowKind, MAX_PACKET, internet_sum, write_checksum};
use octet_fields::{put_octets, put_u16, put_u32, u16_at};

/// Writes the payload of the packet's labelled frame to the front of `out` and gives its length in
/// octets: 16 less than the packet has for type 1, 8 less for type 2.
pub fn wrap_flow(flow: &FlowId, packet: &[u8], out: &mut [u8]) -> usize
    requires packet { IsPacket packet.now }
    requires flow { flow_of (kind_of flow.now) packet.now ≡ Some flow.now }
    requires room { length (labelled_payload (kind_of flow.now) packet.now) ≤ length out.old }
    ensures written { out.new ≡ labelled_payload (kind_of flow.now) packet.now ++ drop result out.old }
    ensures len { result ≡ length (labelled_payload (kind_of flow.now) packet.now) }
    ensures carried { canonical packet.now ≡ packet.now → Carries flow.now packet.now (labelled_payload (kind_of flow.now) packet.now) }
{
    match flow.kind() {
        FlowKind::One => wrap_connection(packet, out),
        FlowKind::Two => wrap_hosts(packet, out),
    }
}

/// Puts the packet together that the payload is under the flow's label, at the front of `out`, with
/// its canonical checksum, and gives its length in octets. Refuses, by the first test that fails:
/// `Short` (under 8 octets for type 1, under 12 for type 2), `Reserved` (octet 0 or 8 of type 2 isn't
/// 0, or the Fragment Offset of type 1 isn't 0), `Length` (Total Length isn't that of the packet, or
/// is over 1500), `Checksum` (not that of the header that is put together). A refusal leaves `out`.
pub fn unwrap_flow(flow: &FlowId, payload: &[u8], out: &mut [u8]) -> Result<usize, EncapsFault>
    requires flow { IsFlow flow.now }
    requires room { 1500 ≤ length out.old }
    ensures found { IfOk result (λ size. Carries flow.now (take size out.new) payload.now) }
    ensures rest { IfOk result (λ size. drop size out.new ≡ drop size out.old) }
    ensures carried { (packet : List ℕ) → Carries flow.now packet payload.now → (result ≡ Ok (length packet)) × (take (length packet) out.new ≡ packet) }
    ensures fault { result_err result ≡ unwrap_fault flow.now payload.now }
    ensures err { OnErr result (out.new ≡ out.old) }
{
    put_together(flow, payload, out)
}

/// The same, with the packet that is written named.
fn put_together(flow: &FlowId, payload: &[u8], out: &mut [u8]) -> Result<usize, EncapsFault>
    requires flow { IsFlow flow.now }
    requires room { 1500 ≤ length out.old }
    ensures layout { OnOk result (HasLayout (kind_of flow.now) payload.now) }
    ensures fits { OnOk result (FitsFields flow.now) }
    ensures written { IfOk result (λ size. out.new ≡ canonical (rebuilt flow.now payload.now) ++ drop size out.old) }
    ensures len { IfOk result (λ size. size ≡ length payload.now + left_out (kind_of flow.now)) }
    ensures fault { result_err result ≡ unwrap_fault flow.now payload.now }
    ensures err { OnErr result (out.new ≡ out.old) }
{
    check_layout(flow.kind(), payload)?;
    let (mut head, size) = head_of(flow, payload);
    if said_checksum(flow.kind(), payload) != checksum_at_ttl_zero(&head[..size]) {
        return Err(EncapsFault::Checksum);
    }
    write_checksum(&mut head[..size]);
    let rest = &payload[head_size(flow.kind())..];
    Ok(write_packet(&head[..size], rest, out))
}

/// The canonical checksum of the header with Time To Live zero.
fn checksum_at_ttl_zero(packet: &[u8]) -> u16
    requires { 20 ≤ length packet.now }
    ensures { result ≡ zero_ttl_checksum packet.now }
{
    let mut header = [0; 20];
    header.copy_from_slice(&packet[..20]);
    header[8] = 0;
    put_u16(&mut header, 10, 0);
    0xffff - internet_sum(&header)
}

/// The payload of type 1.
fn wrap_connection(packet: &[u8], out: &mut [u8]) -> usize
    requires packet { 24 ≤ length packet.now }
    requires room { length packet.now ≤ length out.old + 16 }
    ensures written { out.new ≡ labelled_payload FlowKind.One packet.now ++ drop result out.old }
    ensures len { result + 16 ≡ length packet.now }
{
    put_octets(out, 0, &packet[2..8]);
    put_u16(out, 6, checksum_at_ttl_zero(packet));
    put_octets(out, 8, &packet[24..]);
    packet.len() - 16
}

/// The payload of type 2.
fn wrap_hosts(packet: &[u8], out: &mut [u8]) -> usize
    requires packet { 20 ≤ length packet.now }
    requires room { length packet.now ≤ length out.old + 8 }
    ensures written { out.new ≡ labelled_payload FlowKind.Two packet.now ++ drop result out.old }
    ensures len { result + 8 ≡ length packet.now }
{
    put_octets(out, 0, &[0, packet[1]]);
    put_octets(out, 2, &packet[2..8]);
    put_octets(out, 8, &[0, packet[9]]);
    put_u16(out, 10, checksum_at_ttl_zero(packet));
    put_octets(out, 12, &packet[20..]);
    packet.len() - 8
}

/// The tests of length, reserved fields and Total Length.
fn check_layout(kind: FlowKind, payload: &[u8]) -> Result<(), EncapsFault>
    ensures ok { OnOk result (HasLayout kind payload.now) }
    ensures fault { result_err result ≡ layout_fault kind payload.now }
{
    match kind {
        FlowKind::One => check_connection(payload),
        FlowKind::Two => check_hosts(payload),
    }
}

/// The tests of type 1.
fn check_connection(payload: &[u8]) -> Result<(), EncapsFault>
    ensures ok { OnOk result (HasLayout FlowKind.One payload.now) }
    ensures fault { result_err result ≡ layout_fault FlowKind.One payload.now }
{
    if payload.len() < 8 {
        return Err(EncapsFault::Short);
    }
    if u16_at(payload, 4) % 8192 != 0 {
        return Err(EncapsFault::Reserved);
    }
    let total_length = u16_at(payload, 0) as usize;
    if total_length != payload.len() + 16 || total_length > MAX_PACKET {
        return Err(EncapsFault::Length);
    }
    Ok(())
}

/// The tests of type 2.
fn check_hosts(payload: &[u8]) -> Result<(), EncapsFault>
    ensures ok { OnOk result (HasLayout FlowKind.Two payload.now) }
    ensures fault { result_err result ≡ layout_fault FlowKind.Two payload.now }
{
    if payload.len() < 12 {
        return Err(EncapsFault::Short);
    }
    if payload[0] != 0 || payload[8] != 0 {
        return Err(EncapsFault::Reserved);
    }
    let total_length = u16_at(payload, 2) as usize;
    if total_length != payload.len() + 8 || total_length > MAX_PACKET {
        return Err(EncapsFault::Length);
    }
    Ok(())
}

/// The checksum that the payload says.
fn said_checksum(kind: FlowKind, payload: &[u8]) -> u16
    requires { size_of_head kind ≤ length payload.now }
    ensures { result ≡ checksum_said kind payload.now }
{
    match kind {
        FlowKind::One => u16_at(payload, 6),
        FlowKind::Two => u16_at(payload, 10),
    }
}

/// How many octets of a payload stand in front of those that are the packet's own.
fn head_size(kind: FlowKind) -> usize
    ensures { result ≡ size_of_head kind }
{
    match kind {
        FlowKind::One => 8,
        FlowKind::Two => 12,
    }
}

/// The octets that flow and payload make in front of those that are the payload's own, the checksum
/// field zero, and how many they are: 24 for type 1, 20 for type 2.
fn head_of(flow: &FlowId, payload: &[u8]) -> ([u8; 24], usize)
    requires { size_of_head (kind_of flow.now) ≤ length payload.now }
    ensures size { result.1 ≡ size_of_head (kind_of flow.now) + left_out (kind_of flow.now) }
    ensures rebuilt { take result.1 result.0 ≡ take result.1 (rebuilt flow.now payload.now) }
    ensures fits { FitsFields flow.now }
{
    let mut head = [0; 24];
    head[0] = 0x45;
    match flow {
        FlowId::One {
            tos,
            ttl,
            protocol,
            source,
            destination,
            source_port,
            destination_port,
        } => {
            let (tos, ttl, protocol) = (*tos, *ttl, *protocol);
            let (source, destination) = (source.0, destination.0);
            let (source_port, destination_port) = (*source_port, *destination_port);
            head[1] = tos;
            put_octets(&mut head, 2, &payload[..6]);
            head[8] = ttl;
            head[9] = protocol;
            put_u32(&mut head, 12, source);
            put_u32(&mut head, 16, destination);
            put_u16(&mut head, 20, source_port);
            put_u16(&mut head, 22, destination_port);
            (head, 24)
        }
        FlowId::Two {
            ttl,
            source,
            destination,
        } => {
            let (ttl, source, destination) = (*ttl, source.0, destination.0);
            head[1] = payload[1];
            put_octets(&mut head, 2, &payload[2..8]);
            head[8] = ttl;
            head[9] = payload[9];
            put_u32(&mut head, 12, source);
            put_u32(&mut head, 16, destination);
            (head, 20)
        }
    }
}

/// Writes a packet of these two parts and gives its length in octets.
fn write_packet(head: &[u8], rest: &[u8], out: &mut [u8]) -> usize
    requires { length head.now + length rest.now ≤ length out.old }
    ensures written { out.new ≡ (head.now ++ rest.now) ++ drop result out.old }
    ensures len { result ≡ length head.now + length rest.now }
{
    put_octets(out, 0, head);
    put_octets(out, head.len(), rest);
    head.len() + rest.len()
}
