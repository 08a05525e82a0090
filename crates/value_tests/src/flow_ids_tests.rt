//! Flows and identifiers of worked packets.

use ipv4_packet::*;
use net_types::Addr;

/// A datagram from 10.0.1.1, port 5001, to 10.0.3.1, port 5002, with Time To Live 4.
const DATAGRAM: [u8; 28] = [
    0x45, 0x00, 0x00, 0x1c, 0x00, 0x01, 0x00, 0x00, 0x04, 0x11, 0x9e, 0xcf, 0x0a, 0x00, 0x01, 0x01,
    0x0a, 0x00, 0x03, 0x01, 0x13, 0x89, 0x13, 0x8a, 0x00, 0x08, 0x00, 0x00,
];

/// Its flow of type 1, and the octets of its identifier, as the layout has them.
const CONNECTION: FlowId = FlowId::One {
    tos: 0,
    ttl: 4,
    protocol: 17,
    source: Addr(0x0a00_0101),
    destination: Addr(0x0a00_0301),
    source_port: 5001,
    destination_port: 5002,
};

const CONNECTION_IDENTIFIER: [u8; 16] = [
    0x45, 0x00, 0x04, 0x11, 0x0a, 0x00, 0x01, 0x01, 0x0a, 0x00, 0x03, 0x01, 0x13, 0x89, 0x13, 0x8a,
];

/// The same of its flow of type 2.
const HOSTS: FlowId = FlowId::Two {
    ttl: 4,
    source: Addr(0x0a00_0101),
    destination: Addr(0x0a00_0301),
};

const HOSTS_IDENTIFIER: [u8; 12] = [
    0x45, 0x00, 0x04, 0x00, 0x0a, 0x00, 0x01, 0x01, 0x0a, 0x00, 0x03, 0x01,
];

#[test]
fn a_datagram_has_both_flows(rt: HostRuntime) {
    assert!(rt; ipv4_packet::check(&DATAGRAM).is_ok());
    assert_eq!(rt; of_packet(FlowKind::One, &DATAGRAM), Some(CONNECTION));
    assert_eq!(rt; of_packet(FlowKind::Two, &DATAGRAM), Some(HOSTS));
    assert!(rt; matches(&CONNECTION, &DATAGRAM));
    assert!(rt; matches(&HOSTS, &DATAGRAM));
    assert_eq!(rt; CONNECTION.kind(), FlowKind::One);
}

/// Packets by fragment offset, Time To Live and protocol, and whether they have a flow of type 2.
const WITHOUT_PORTS: [(u8, u8, u8, u8, bool); 4] = [
    (0x00, 0x01, 4, 17, true),
    (0x1f, 0xff, 4, 17, true),
    (0x00, 0x00, 4, 1, true),
    (0x00, 0x00, 0, 17, false),
];

/// Neither a later fragment nor another protocol shows ports; a packet that is spent has no flow.
#[test]
fn packets_without_a_flow(rt: HostRuntime) {
    for &(high, low, ttl, protocol, hosts) in &WITHOUT_PORTS {
        let mut packet = DATAGRAM;
        packet[6..10].copy_from_slice(&[high, low, ttl, protocol]);
        ipv4_packet::write_checksum(&mut packet);
        assert!(rt; ipv4_packet::check(&packet).is_ok());
        assert_eq!(rt; of_packet(FlowKind::One, &packet), None);
        assert_eq!(rt; of_packet(FlowKind::Two, &packet).is_some(), hosts);
    }
}

#[test]
fn identifiers_of_the_flows(rt: HostRuntime) {
    let connection = read_identifier(FlowKind::One, &CONNECTION_IDENTIFIER);
    assert_eq!(rt; connection, Ok(CONNECTION));
    assert_eq!(rt;
        read_identifier(FlowKind::Two, &HOSTS_IDENTIFIER),
        Ok(HOSTS)
    );
    let mut out = [0; 16];
    assert_eq!(rt; write_identifier(&CONNECTION, &mut out), 16);
    assert_eq!(rt; out, CONNECTION_IDENTIFIER);
}

/// Identifiers of type 2 with one octet changed, and the refusal. Each passes the tests before its own.
const CHANGED: [(usize, u8, FlowFault); 4] = [
    (1, 1, FlowFault::Reserved),
    (3, 17, FlowFault::Reserved),
    (0, 0x46, FlowFault::Fields),
    (2, 0, FlowFault::Fields),
];

/// Identifiers of type 1 that are refused; behind the fourth octet they are zeros.
const OTHERS: [([u8; 4], usize, FlowFault); 3] = [
    ([0x45, 0, 4, 17], 12, FlowFault::Size),
    ([0, 0, 0, 0], 16, FlowFault::Fields),
    ([0x45, 0, 1, 1], 16, FlowFault::Fields),
];

#[test]
fn identifiers_are_refused_by_cause(rt: HostRuntime) {
    for &(place, octet, fault) in &CHANGED {
        assert!(rt; place < 12);
        let mut hosts = HOSTS_IDENTIFIER;
        hosts[place] = octet;
        assert_eq!(rt; read_identifier(FlowKind::Two, &hosts), Err(fault));
    }
    for &(first, size, fault) in &OTHERS {
        assert!(rt; size <= 16);
        let mut connection = [0; 16];
        connection[..4].copy_from_slice(&first);
        assert_eq!(rt;
            read_identifier(FlowKind::One, &connection[..size]),
            Err(fault)
        );
    }
}
