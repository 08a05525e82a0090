//! A worked packet under both of its flows.

ghost use Rattle.std.specs.Prelude.{◌≡◌, ◌<◌, ◌≤◌, length};
ghost use Rattle.ipv4_packet.specs.Flow.{IsFlow, kind_of};
ghost use Rattle.flow_encaps.specs.Labelled.{labelled_payload};

use flow_encaps::*;
use ipv4_packet::{FlowId, FlowKind, check, set_ttl};
use net_types::Addr;
use std::process::Abort;

/// A datagram from 10.0.1.1, port 5001, to 10.0.3.1, port 5002, with Time To Live 4.
const PACKET: [u8; 28] = [
    0x45, 0x00, 0x00, 0x1c, 0x00, 0x01, 0x00, 0x00, 0x04, 0x11, 0x9e, 0xcf, 0x0a, 0x00, 0x01, 0x01,
    0x0a, 0x00, 0x03, 0x01, 0x13, 0x89, 0x13, 0x8a, 0x00, 0x08, 0x00, 0x00,
];

/// Its payload under type 1.
const CONNECTION_PAYLOAD: [u8; 12] = [
    0x00, 0x1c, 0x00, 0x01, 0x00, 0x00, 0xa2, 0xcf, 0x00, 0x08, 0x00, 0x00,
];

/// Its payload under type 2.
const HOSTS_PAYLOAD: [u8; 20] = [
    0x00, 0x00, 0x00, 0x1c, 0x00, 0x01, 0x00, 0x00, 0x00, 0x11, 0xa2, 0xcf, 0x13, 0x89, 0x13, 0x8a,
    0x00, 0x08, 0x00, 0x00,
];

const SOURCE: Addr = Addr(0x0a00_0101);

const DESTINATION: Addr = Addr(0x0a00_0301);

/// The connection where its packets have this Time To Live.
fn connection(ttl: u8) -> FlowId
    requires { 0 < ttl }
    ensures flow { IsFlow result }
    ensures kind { kind_of result ≡ FlowKind.One }
{
    FlowId::One {
        tos: 0,
        ttl,
        protocol: 17,
        source: SOURCE,
        destination: DESTINATION,
        source_port: 5001,
        destination_port: 5002,
    }
}

/// The hosts where their packets have Time To Live 4.
const HOSTS: FlowId = FlowId::Two {
    ttl: 4,
    source: SOURCE,
    destination: DESTINATION,
};

/// The packet is carried as this payload, and the payload gives it back.
fn check_carried(rt: &impl Abort, flow: &FlowId, packet: &[u8; 28], payload: &[u8])
    requires flow { IsFlow flow.now }
    requires room { length (labelled_payload (kind_of flow.now) packet.now) ≤ 1500 }
{
    assert!(rt; check(packet).is_ok());
    assert!(rt; ipv4_packet::matches(flow, packet));
    let mut out = [0; 1500];
    let size = wrap_flow(flow, packet, &mut out);
    assert_eq!(rt; size, payload.len());
    assert!(rt; out.starts_with(payload));
    assert_eq!(rt; unwrap_flow(flow, payload, &mut out), Ok(28));
    assert!(rt; out.starts_with(packet));
}

/// Under type 1 the payload is the same at Time To Live 4, 3 and 2; under type 2 it keeps TOS, protocol and
/// ports.
#[test]
fn a_packet_is_carried_under_both_of_its_flows(rt: HostRuntime) {
    for ttl in [4, 3, 2] {
        let mut packet = PACKET;
        set_ttl(&mut packet, ttl);
        check_carried(&rt, &connection(ttl), &packet, &CONNECTION_PAYLOAD);
    }
    check_carried(&rt, &HOSTS, &PACKET, &HOSTS_PAYLOAD);
}

/// Payloads of the connection and of the hosts: how many octets are left, the index, the octet there, and the
/// refusal. Each passes the tests before its own.
const CONNECTION_REFUSED: [(usize, usize, u8, EncapsFault); 6] = [
    (7, 0, 0, EncapsFault::Short),
    (11, 0, 0, EncapsFault::Length),
    (12, 5, 1, EncapsFault::Reserved),
    (12, 1, 0x1d, EncapsFault::Length),
    (12, 7, 0xce, EncapsFault::Checksum),
    (12, 3, 2, EncapsFault::Checksum),
];

const HOSTS_REFUSED: [(usize, usize, u8, EncapsFault); 5] = [
    (11, 0, 0, EncapsFault::Short),
    (20, 0, 1, EncapsFault::Reserved),
    (20, 8, 1, EncapsFault::Reserved),
    (20, 3, 0x1d, EncapsFault::Length),
    (20, 9, 6, EncapsFault::Checksum),
];

/// What a payload is refused for.
fn refusal(flow: &FlowId, payload: &[u8]) -> Option<EncapsFault>
    requires { IsFlow flow.now }
{
    let mut out = [0; 1500];
    unwrap_flow(flow, payload, &mut out).err()
}

#[test]
fn payloads_are_refused_by_cause(rt: HostRuntime) {
    for &(size, place, octet, fault) in &CONNECTION_REFUSED {
        assert!(rt; size <= 12 && place < 12);
        let mut payload = CONNECTION_PAYLOAD;
        payload[place] = octet;
        assert_eq!(rt; refusal(&connection(4), &payload[..size]), Some(fault));
    }
    for &(size, place, octet, fault) in &HOSTS_REFUSED {
        assert!(rt; size <= 20 && place < 20);
        let mut payload = HOSTS_PAYLOAD;
        payload[place] = octet;
        assert_eq!(rt; refusal(&HOSTS, &payload[..size]), Some(fault));
    }
}
