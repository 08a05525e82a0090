//! Messages and their octets, by hand from the layouts. Where octets are read as a message, they are the ones
//! that are written for it, by the contracts of both.

ghost use Rattle.std.specs.Prelude.{◌<◌, ◌≤◌, length};

use gsmp_wire::*;
use std::alloc::Global;
use std::test::Fail;

/// A first controller greets; it knows no receiver.
const SYN: [u8; 40] = [
    0xaa, 0xaa, 0x03, 0x00, 0x00, 0x00, 0x88, 0x0c, 0x01, 0x0a, 0x00, 0x01, //
    0x02, 0x00, 0x00, 0x00, 0x00, 0x01, 0x00, 0x00, 0x00, 0x00, 0x00, 0x00, //
    0x00, 0x00, 0x00, 0x00, 0x00, 0x00, 0x00, 0x00, 0x00, 0x00, 0x00, 0x01, //
    0x00, 0x00, 0x00, 0x00,
];

/// Add Branch: a request from 0/32 of port 1 to 16/32 of port 0.
const ADD: [u8; 40] = [
    0xaa, 0xaa, 0x03, 0x00, 0x00, 0x00, 0x88, 0x0c, 0x01, 0x10, 0x02, 0x00, //
    0x00, 0x00, 0x00, 0x05, 0x00, 0x00, 0x00, 0x09, 0x00, 0x00, 0x00, 0x01, //
    0x00, 0x00, 0x00, 0x20, 0x00, 0x00, 0x00, 0x00, 0x00, 0x10, 0x00, 0x20, //
    0x00, 0x00, 0x00, 0x00,
];

/// Verify Tree: the success answer of an input with that branch.
const VERIFIED: [u8; 40] = [
    0xaa, 0xaa, 0x03, 0x00, 0x00, 0x00, 0x88, 0x0c, 0x01, 0x13, 0x03, 0x00, //
    0x00, 0x00, 0x00, 0x06, 0x00, 0x00, 0x00, 0x09, 0x00, 0x00, 0x00, 0x01, //
    0x00, 0x00, 0x00, 0x20, 0x00, 0x00, 0x00, 0x00, 0x00, 0x10, 0x00, 0x20, //
    0x00, 0x01, 0x00, 0x00,
];

/// Delete All: a request for port 1.
const DELETE_ALL: [u8; 40] = [
    0xaa, 0xaa, 0x03, 0x00, 0x00, 0x00, 0x88, 0x0c, 0x01, 0x14, 0x02, 0x00, //
    0x00, 0x00, 0x00, 0x04, 0x00, 0x00, 0x00, 0x09, 0x00, 0x00, 0x00, 0x01, //
    0x00, 0x00, 0x00, 0x00, 0x00, 0x00, 0x00, 0x00, 0x00, 0x00, 0x00, 0x00, //
    0x00, 0x00, 0x00, 0x00,
];

/// Move Branch: that branch is to lead to 0/40 of port 2.
const MOVE: [u8; 48] = [
    0xaa, 0xaa, 0x03, 0x00, 0x00, 0x00, 0x88, 0x0c, 0x01, 0x16, 0x02, 0x00, //
    0x00, 0x00, 0x00, 0x07, 0x00, 0x00, 0x00, 0x09, 0x00, 0x00, 0x00, 0x01, //
    0x00, 0x00, 0x00, 0x20, 0x00, 0x00, 0x00, 0x00, 0x00, 0x10, 0x00, 0x20, //
    0x00, 0x00, 0x00, 0x00, 0x00, 0x00, 0x00, 0x02, 0x00, 0x00, 0x00, 0x28,
];

/// Port Management: port 2 was brought up, in session 10.
const PORT_UP: [u8; 28] = [
    0xaa, 0xaa, 0x03, 0x00, 0x00, 0x00, 0x88, 0x0c, 0x01, 0x20, 0x03, 0x00, //
    0x00, 0x00, 0x00, 0x08, 0x00, 0x00, 0x00, 0x02, 0x00, 0x00, 0x00, 0x0a, //
    0x01, 0x00, 0x00, 0x00,
];

/// All Ports: port 0 is up, port 1 is down.
const ALL_PORTS: [u8; 52] = [
    0xaa, 0xaa, 0x03, 0x00, 0x00, 0x00, 0x88, 0x0c, 0x01, 0x42, 0x03, 0x00, //
    0x00, 0x00, 0x00, 0x09, 0x00, 0x02, 0x00, 0x00, 0x00, 0x00, 0x00, 0x00, //
    0x00, 0x00, 0x00, 0x0b, 0x01, 0x00, 0x00, 0x20, 0x03, 0xff, 0x00, 0x00, //
    0x00, 0x00, 0x00, 0x01, 0x00, 0x00, 0x00, 0x0c, 0x02, 0x00, 0x00, 0x20, //
    0x03, 0xff, 0x00, 0x00,
];

/// All Ports: the request.
const ALL_PORTS_REQUEST: [u8; 20] = [
    0xaa, 0xaa, 0x03, 0x00, 0x00, 0x00, 0x88, 0x0c, 0x01, 0x42, 0x02, 0x00, //
    0x00, 0x00, 0x00, 0x09, 0x00, 0x00, 0x00, 0x00,
];

/// The messages of these octets, as they are shown.
const SHOWN: [(&[u8], &str); 8] = [
    (
        &SYN,
        "Adjacency(Greeting { kind: Syn, sender: Party { name: [2, 0, 0, 0, 0, 1], port: 0, instance: Instance(1) }, receiver: Party { name: [0, 0, 0, 0, 0, 0], port: 0, instance: Instance(0) } })",
    ),
    (
        &ADD,
        "Branch { kind: Add, result: 2, code: 0, transaction: 5, session: 9, input_port: 1, input: Channel { vpi: 0, vci: 32 }, output_port: 0, output: Channel { vpi: 16, vci: 32 }, branches: 0, priority: 0 }",
    ),
    (
        &VERIFIED,
        "Branch { kind: Verify, result: 3, code: 0, transaction: 6, session: 9, input_port: 1, input: Channel { vpi: 0, vci: 32 }, output_port: 0, output: Channel { vpi: 16, vci: 32 }, branches: 1, priority: 0 }",
    ),
    (
        &DELETE_ALL,
        "Branch { kind: DeleteAll, result: 2, code: 0, transaction: 4, session: 9, input_port: 1, input: Channel { vpi: 0, vci: 0 }, output_port: 0, output: Channel { vpi: 0, vci: 0 }, branches: 0, priority: 0 }",
    ),
    (
        &MOVE,
        "Move { result: 2, code: 0, transaction: 7, session: 9, input_port: 1, input: Channel { vpi: 0, vci: 32 }, output_port: 0, output: Channel { vpi: 16, vci: 32 }, target_port: 2, target: Channel { vpi: 0, vci: 40 }, branches: 0, priority: 0 }",
    ),
    (
        &PORT_UP,
        "Port { result: 3, code: 0, transaction: 8, port: 2, session: 10, function: 1 }",
    ),
    (
        &ALL_PORTS,
        "3 0 9 [PortRow { port: 0, session: 11, up: true, least: 32, greatest: 1023 }, PortRow { port: 1, session: 12, up: false, least: 32, greatest: 1023 }]",
    ),
    (&ALL_PORTS_REQUEST, "2 0 9 []"),
];

/// The message of these octets, as it is shown. Of All Ports its fields, with the records that it has.
fn shown(alloc: Global, octets: &[u8]) -> Result<String, Fail> {
    Ok(match decode(octets)? {
        Message::AllPorts {
            result,
            code,
            transaction,
            rows,
        } => format!(in alloc; "{result} {code} {transaction} {:?}", rows.as_slice())?,
        message => format!(in alloc; "{message:?}")?,
    })
}

#[test]
fn messages_are_read(rt: HostRuntime) -> Result<(), Fail> {
    for &(octets, text) in &SHOWN {
        assert_eq!(rt; shown(rt.alloc(), octets)?.as_str(), text);
    }
    Ok(())
}

/// What octets are refused for.
fn refusal(octets: &[u8]) -> Option<Fault> {
    decode(octets).err()
}

/// Messages that are cut, by how many octets are left, and the refusal.
const CUT: [(&[u8], usize, Fault); 6] = [
    (&ADD, 11, Fault::Short),
    (&SYN, 39, Fault::Size),
    (&ADD, 39, Fault::Size),
    (&MOVE, 40, Fault::Size),
    (&PORT_UP, 27, Fault::Size),
    (&ALL_PORTS, 51, Fault::Size),
];

/// Messages with one octet changed: the index, the octet there, and the refusal.
const CHANGED: [(&[u8], usize, u8, Fault); 27] = [
    (&ADD, 7, 0x0d, Fault::Snap),
    (&ADD, 8, 2, Fault::Version),
    (&ADD, 9, 17, Fault::MessageType),
    (&SYN, 10, 2, Fault::Result),
    (&ADD, 10, 1, Fault::Result),
    (&ADD, 10, 5, Fault::Result),
    (&SYN, 11, 0, Fault::Code),
    (&SYN, 11, 5, Fault::Code),
    (&ADD, 11, 1, Fault::Code),
    (&VERIFIED, 11, 1, Fault::Code),
    (&ADD, 10, 4, Fault::Code),
    (&ALL_PORTS, 17, 1, Fault::Size),
    (&ALL_PORTS_REQUEST, 10, 3, Fault::Size),
    (&ADD, 38, 1, Fault::Reserved),
    (&ADD, 37, 1, Fault::Reserved),
    (&VERIFIED, 37, 2, Fault::Reserved),
    (&ADD, 9, 18, Fault::Reserved),
    (&ADD, 9, 19, Fault::Reserved),
    (&DELETE_ALL, 31, 1, Fault::Reserved),
    (&DELETE_ALL, 27, 32, Fault::Reserved),
    (&MOVE, 38, 1, Fault::Reserved),
    (&PORT_UP, 24, 3, Fault::Reserved),
    (&PORT_UP, 27, 1, Fault::Reserved),
    (&ALL_PORTS, 19, 1, Fault::Reserved),
    (&ALL_PORTS, 28, 3, Fault::Reserved),
    (&ALL_PORTS, 51, 1, Fault::Reserved),
    (&ALL_PORTS_REQUEST, 17, 1, Fault::Reserved),
];

/// The octets with this one changed, and zeros behind them.
fn changed(octets: &[u8], place: usize, octet: u8) -> [u8; 52]
    requires size { length octets.now ≤ 52 }
    requires place { place < length octets.now }
{
    let mut message = [0; 52];
    message[..octets.len()].copy_from_slice(octets);
    message[place] = octet;
    message
}

/// Each fails the test of its refusal and none before it.
#[test]
fn octets_are_refused_by_cause(rt: HostRuntime) {
    for &(octets, size, fault) in &CUT {
        assert!(rt; size <= octets.len());
        assert_eq!(rt; refusal(&octets[..size]), Some(fault));
    }
    for &(octets, place, octet, fault) in &CHANGED {
        assert!(rt; octets.len() <= 52 && place < octets.len());
        let message = changed(octets, place, octet);
        let refusal = refusal(&message[..octets.len()]);
        assert_eq!(rt; refusal, Some(fault), "{octet} at {place}");
    }
}
