//! Worked headers, and headers from outside.

use ipv4_packet::*;
use net_types::Addr;

/// From 10.0.1.1, port 5001, to 10.0.3.1, port 5002, by UDP, and a datagram of 8 octets.
const ENDS: [u8; 16] = [
    10, 0, 1, 1, 10, 0, 3, 1, 0x13, 0x89, 0x13, 0x8a, 0x00, 0x08, 0x00, 0x00,
];

/// A packet of 28 octets with these first 12.
fn datagram(first: [u8; 12]) -> [u8; 28] {
    let mut packet = [0; 28];
    packet[..12].copy_from_slice(&first);
    packet[12..].copy_from_slice(&ENDS);
    packet
}

/// RFC 1071 3 sums eight octets to DDF2; an odd octet counts as the high one of its word.
#[test]
fn sums_of_rfc_1071(rt: HostRuntime) {
    let octets = [0x00, 0x01, 0xf2, 0x03, 0xf4, 0xf5, 0xf6, 0xf7];
    assert_eq!(rt; internet_sum(&octets), 0xddf2);
    assert_eq!(rt; internet_sum(&octets[..7]), 0xdcfb);
    assert_eq!(rt; internet_sum(&[]), 0);
}

/// The first 12 octets of a packet, and its checksum behind a hop. A header whose canonical field is 0000, one
/// whose field is FFFF instead, and one that becomes 0000 by losing a hop; before them a common one.
const HOPS: [([u8; 12], [u8; 2]); 4] = [
    (
        [0x45, 0, 0, 0x1c, 0x00, 0x01, 0, 0, 4, 17, 0x9e, 0xcf],
        [0x9f, 0xcf],
    ),
    (
        [0x45, 0, 0, 0x1c, 0x9e, 0xd0, 0, 0, 4, 17, 0xff, 0xff],
        [0x01, 0x00],
    ),
    (
        [0x45, 0, 0, 0x1c, 0x9e, 0xd0, 0, 0, 4, 17, 0x00, 0x00],
        [0x01, 0x00],
    ),
    (
        [0x45, 0, 0, 0x1c, 0x9f, 0xd0, 0, 0, 4, 17, 0xfe, 0xff],
        [0x00, 0x00],
    ),
];

#[test]
fn a_hop_leaves_the_canonical_checksum(rt: HostRuntime) {
    for &(first, checksum) in &HOPS {
        let mut packet = datagram(first);
        assert_eq!(rt; check(&packet), Ok(()));
        set_ttl(&mut packet, 3);
        assert_eq!(rt;
            &packet[8..12],
            [3, 17, checksum[0], checksum[1]].as_slice(),
            "{first:?}"
        );
    }
}

/// The header of 115 octets that textbooks sum to B861, and one made by Python's struct.
#[test]
fn headers_from_outside(rt: HostRuntime) {
    let mut textbook = [0; 115];
    textbook[..20].copy_from_slice(&[
        0x45, 0x00, 0x00, 0x73, 0x00, 0x00, 0x40, 0x00, 0x40, 0x11, 0xb8, 0x61, 0xc0, 0xa8, 0x00,
        0x01, 0xc0, 0xa8, 0x00, 0xc7,
    ]);
    assert_eq!(rt; check(&textbook), Ok(()));
    let mut made = [
        0x45, 0x10, 0x00, 0x18, 0xbe, 0xef, 0x40, 0x00, 0x40, 0x06, 0xa7, 0x45, 172, 16, 254, 9,
        198, 51, 100, 77, 1, 2, 3, 4,
    ];
    assert_eq!(rt; check(&made), Ok(()));
    let numbers = (
        tos(&made),
        total_length(&made),
        identification(&made),
        fragment(&made),
    );
    assert_eq!(rt; numbers, (0x10, 24, 0xbeef, 0x4000));
    let names = (
        ttl(&made),
        protocol(&made),
        source(&made),
        destination(&made),
    );
    assert_eq!(rt; names, (64, 6, Addr(0xac10_fe09), Addr(0xc633_644d)));
    set_ttl(&mut made, 63);
    assert_eq!(rt; (made[10], made[11]), (0xa8, 0x45));
}

/// Packets with one octet changed, and the refusal. Each passes the tests before its own.
const CHANGED: [(usize, u8, PacketFault); 4] = [
    (0, 0x66, PacketFault::Version),
    (0, 0x46, PacketFault::Options),
    (3, 0x1d, PacketFault::Length),
    (11, 0xce, PacketFault::Checksum),
];

#[test]
fn octets_are_refused_by_cause(rt: HostRuntime) {
    let good = datagram([0x45, 0, 0, 0x1c, 0x00, 0x01, 0, 0, 4, 17, 0x9e, 0xcf]);
    assert_eq!(rt; check(&good[..19]), Err(PacketFault::Short));
    for &(place, octet, fault) in &CHANGED {
        assert!(rt; place < 28);
        let mut packet = good;
        packet[place] = octet;
        assert_eq!(rt; check(&packet), Err(fault));
    }
    let mut long = [0; 1501];
    long[..4].copy_from_slice(&[0x45, 0, 0x05, 0xdd]);
    assert_eq!(rt; check(&long), Err(PacketFault::TooLong));
}

/// A message of 40 octets from 10.0.1.1, as Python's struct makes it.
#[test]
fn an_ifmp_packet(rt: HostRuntime) {
    let mut out = [7; 61];
    assert_eq!(rt; ifmp_packet(Addr(0x0a00_0101), &[9; 40], &mut out), 60);
    let header = [
        0x45, 0, 0, 60, 0, 0, 0, 0, 1, 101, 0xae, 0x5d, 10, 0, 1, 1, 255, 255, 255, 255,
    ];
    assert_eq!(rt; &out[..20], header.as_slice());
    assert_eq!(rt; &out[20..60], [9; 40].as_slice());
    assert_eq!(rt; out[60], 7);
}
