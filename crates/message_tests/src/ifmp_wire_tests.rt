//! Each message and its octets, made by Python's struct, and each refusal. Where octets are read as a message,
//! they are the ones that are written for it, by the contracts of both.

ghost use Rattle.std.specs.Prelude.{◌<◌, ◌≤◌, length};

use ifmp_wire::*;
use ipv4_packet::{FlowId, internet_sum};
use net_types::{Addr, Channel, Hello, HelloKind, Instance};
use octet_fields::put_u16;

const SENDER: Instance = Instance(1);

const PEER: Instance = Instance(2);

const LABEL: Channel = Channel { vpi: 0, vci: 32 };

/// From 10.0.1.1, port 5001, to 10.0.3.1, port 5002, by UDP.
const CONNECTION: FlowId = FlowId::One {
    tos: 0,
    ttl: 3,
    protocol: 17,
    source: Addr(0x0a00_0101),
    destination: Addr(0x0a00_0301),
    source_port: 5001,
    destination_port: 5002,
};

const HOSTS: FlowId = FlowId::Two {
    ttl: 3,
    source: Addr(0x0a00_0101),
    destination: Addr(0x0a00_0301),
};

const SYN: [u8; 20] = [
    0x01, 0x00, 0xba, 0x98, 0x11, 0x22, 0x33, 0x44, 0x00, 0x00, 0x00, 0x00, 0x00, 0x00, 0x00, 0x00,
    0x00, 0x00, 0x00, 0x01,
];

const ACK: [u8; 20] = [
    0x01, 0x03, 0xf2, 0xf2, 0x00, 0x00, 0x00, 0x01, 0x00, 0x00, 0x00, 0x02, 0x0a, 0x00, 0x02, 0x01,
    0x00, 0x00, 0x00, 0x06,
];

const REDIRECT: [u8; 40] = [
    0x01, 0x04, 0x76, 0x6b, 0x00, 0x00, 0x00, 0x01, 0x00, 0x00, 0x00, 0x02, 0x00, 0x00, 0x00, 0x07,
    0x01, 0x04, 0x00, 0x3c, 0x00, 0x00, 0x00, 0x20, 0x45, 0x00, 0x03, 0x11, 0x0a, 0x00, 0x01, 0x01,
    0x0a, 0x00, 0x03, 0x01, 0x13, 0x89, 0x13, 0x8a,
];

const RECLAIM: [u8; 36] = [
    0x01, 0x05, 0x9c, 0xcb, 0x00, 0x00, 0x00, 0x01, 0x00, 0x00, 0x00, 0x02, 0x00, 0x00, 0x00, 0x07,
    0x02, 0x03, 0x00, 0x00, 0x00, 0x00, 0x00, 0x20, 0x45, 0x00, 0x03, 0x00, 0x0a, 0x00, 0x01, 0x01,
    0x0a, 0x00, 0x03, 0x01,
];

const RECLAIM_ACK: [u8; 40] = [
    0x01, 0x06, 0x76, 0xa5, 0x00, 0x00, 0x00, 0x01, 0x00, 0x00, 0x00, 0x02, 0x00, 0x00, 0x00, 0x07,
    0x01, 0x04, 0x00, 0x00, 0x00, 0x00, 0x00, 0x20, 0x45, 0x00, 0x03, 0x11, 0x0a, 0x00, 0x01, 0x01,
    0x0a, 0x00, 0x03, 0x01, 0x13, 0x89, 0x13, 0x8a,
];

const LABEL_RANGE: [u8; 24] = [
    0x01, 0x07, 0xfa, 0xcf, 0x00, 0x00, 0x00, 0x01, 0x00, 0x00, 0x00, 0x02, 0x00, 0x00, 0x00, 0x07,
    0x00, 0x00, 0x00, 0x20, 0x00, 0x00, 0x03, 0xff,
];

const ERROR: [u8; 24] = [
    0x01, 0x08, 0xfb, 0xce, 0x00, 0x00, 0x00, 0x01, 0x00, 0x00, 0x00, 0x02, 0x00, 0x00, 0x00, 0x07,
    0x02, 0x00, 0x00, 0x00, 0x00, 0xff, 0x00, 0x20,
];

/// The messages of these octets.
const MESSAGES: [(Message, &[u8]); 7] = [
    (
        Message::Adjacency(Hello {
            kind: HelloKind::Syn,
            sender: Instance(0x1122_3344),
            peer: Instance(0),
            identity: Addr(0),
            next: 1,
        }),
        &SYN,
    ),
    (
        Message::Adjacency(Hello {
            kind: HelloKind::Ack,
            sender: SENDER,
            peer: PEER,
            identity: Addr(0x0a00_0201),
            next: 6,
        }),
        &ACK,
    ),
    (
        Message::Redirect {
            sender: SENDER,
            peer: PEER,
            number: 7,
            lifetime: 60,
            label: LABEL,
            flow: CONNECTION,
        },
        &REDIRECT,
    ),
    (
        Message::Reclaim {
            sender: SENDER,
            peer: PEER,
            number: 7,
            label: LABEL,
            flow: HOSTS,
        },
        &RECLAIM,
    ),
    (
        Message::ReclaimAck {
            sender: SENDER,
            peer: PEER,
            number: 7,
            label: LABEL,
            flow: CONNECTION,
        },
        &RECLAIM_ACK,
    ),
    (
        Message::LabelRange {
            sender: SENDER,
            peer: PEER,
            number: 7,
            least: LABEL,
            greatest: Channel { vpi: 0, vci: 1023 },
        },
        &LABEL_RANGE,
    ),
    (
        Message::Error {
            sender: SENDER,
            peer: PEER,
            number: 7,
            code: 2,
            label: Channel { vpi: 255, vci: 32 },
        },
        &ERROR,
    ),
];

#[test]
fn messages_are_read(rt: HostRuntime) {
    for &(message, octets) in &MESSAGES {
        assert_eq!(rt; decode(octets), Ok(message));
    }
}

/// Messages that are cut, or have one octet changed, and then have their old checksum: how many octets
/// are left, the index, the octet there, and the refusal. Each passes the tests before its own.
const UNSEALED: [(usize, usize, u8, Fault); 5] = [
    (3, 0, 1, Fault::Short),
    (39, 0, 1, Fault::Size),
    (40, 0, 2, Fault::Version),
    (40, 1, 9, Fault::OpCode),
    (40, 3, 0x6c, Fault::Checksum),
];

/// The same of each message with the checksum of its octets, whole.
const SEALED: [(&[u8], &[(usize, u8, Fault)]); 4] = [
    (
        &REDIRECT,
        &[
            (16, 3, Fault::FlowType),
            (17, 3, Fault::FlowLength),
            (19, 0, Fault::ZeroLifetime),
            (20, 1, Fault::LabelReserved),
            (27, 1, Fault::FlowFields),
        ],
    ),
    (
        &RECLAIM,
        &[
            (16, 1, Fault::FlowLength),
            (18, 1, Fault::Reserved),
            (27, 17, Fault::Reserved),
        ],
    ),
    (
        &LABEL_RANGE,
        &[(16, 1, Fault::LabelReserved), (17, 1, Fault::RangeOrder)],
    ),
    (
        &ERROR,
        &[(16, 5, Fault::ErrorCode), (18, 1, Fault::Reserved)],
    ),
];

#[test]
fn octets_are_refused_by_cause(rt: HostRuntime) {
    for &(size, place, octet, fault) in &UNSEALED {
        assert!(rt; size <= 40 && place < 40);
        let mut octets = REDIRECT;
        octets[place] = octet;
        assert_eq!(rt; decode(&octets[..size]), Err(fault));
    }
    for &(octets, changes) in &SEALED {
        let size = octets.len();
        assert!(rt; 4 <= size && size <= 40);
        for (place, octet, fault) in changes {
            assert!(rt; *place < size);
            let message = sealed(octets, *place, *octet);
            assert_eq!(rt; decode(&message[..size]), Err(*fault), "at {place}");
        }
    }
}

/// The message with this octet changed, and with the checksum that it then should have. Behind it are
/// zeros.
fn sealed(octets: &[u8], place: usize, octet: u8) -> [u8; 40]
    requires head { 4 ≤ length octets.now }
    requires small { length octets.now ≤ 40 }
    requires place { place < length octets.now }
{
    let mut message = [0; 40];
    message[..octets.len()].copy_from_slice(octets);
    message[place] = octet;
    message[2] = 0;
    message[3] = 0;
    let checksum = 0xffff - internet_sum(&message);
    put_u16(&mut message, 2, checksum);
    message
}
