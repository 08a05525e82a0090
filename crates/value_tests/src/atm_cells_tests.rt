//! Tests of `atm_cells`.

use atm_cells::*;
use net_types::{Channel, Mark};
use std::test::Fail;

/// VPI, VCI, whether the cell is the last of its frame, and the five octets of the header. The
/// HECs are those of a long division of integers in Python; 55 is that of I.361's unassigned cell.
const HEADERS: [(u16, u16, bool, [u8; 5]); 12] = [
    (0, 0, false, [0x00, 0x00, 0x00, 0x00, 0x55]),
    (0, 5, false, [0x00, 0x00, 0x00, 0x50, 0xe2]),
    (0, 15, true, [0x00, 0x00, 0x00, 0xf2, 0x85]),
    (0, 15, false, [0x00, 0x00, 0x00, 0xf0, 0x8b]),
    (0, 32, true, [0x00, 0x00, 0x02, 0x02, 0x71]),
    (1, 32, false, [0x00, 0x10, 0x02, 0x00, 0xdd]),
    (16, 15, false, [0x01, 0x00, 0x00, 0xf0, 0x9d]),
    (128, 15, true, [0x08, 0x00, 0x00, 0xf2, 0x35]),
    (255, 65535, true, [0x0f, 0xff, 0xff, 0xf2, 0xab]),
    (170, 21845, false, [0x0a, 0xa5, 0x55, 0x50, 0xbb]),
    (15, 61680, true, [0x00, 0xff, 0x0f, 0x02, 0xb3]),
    (240, 3855, false, [0x0f, 0x00, 0xf0, 0xf0, 0x4d]),
];

/// These five octets before 48 that count from 0.
fn octets_of(header: [u8; 5]) -> [u8; 53] {
    let mut octets = [0; 53];
    octets[..5].copy_from_slice(&header);
    for place in 0..48u8 {
        octets[place as usize + 5] = place;
    }
    octets
}

#[test]
fn headers_are_written_and_read(rt: HostRuntime) -> Result<(), Fail> {
    for &(vpi, vci, last, octets) in &HEADERS {
        let octets = octets_of(octets);
        let (header, payload) = decode(&octets)?;
        let channel = Channel { vpi, vci };
        assert_eq!(rt; header, Header { channel, last }, "{vpi}/{vci}");
        let mark = Mark {
            packet: 1,
            frame: 2,
        };
        assert!(rt; header.channel.vpi <= 255);
        let cell = Cell {
            header,
            payload,
            mark,
        };
        assert_eq!(rt; encode(&cell), octets, "{vpi}/{vci}");
    }
    Ok(())
}

/// The idle cell of I.432.1 has HEC 52 and CLP 1.
#[test]
fn cells_are_refused_by_cause(rt: HostRuntime) {
    for &(header, fault) in &[
        ([0x00, 0x00, 0x00, 0x01, 0x53], CellFault::Hec),
        ([0xf0, 0x00, 0x00, 0xff, 0xa4], CellFault::Hec),
        ([0x10, 0x00, 0x00, 0xf0, 0xec], CellFault::Gfc),
        ([0xf0, 0x00, 0x00, 0xff, 0xa5], CellFault::Gfc),
        ([0x00, 0x00, 0x00, 0xf4, 0x97], CellFault::Pt),
        ([0x00, 0x00, 0x00, 0xfd, 0xa8], CellFault::Pt),
        ([0x00, 0x00, 0x00, 0x01, 0x52], CellFault::Clp),
        ([0x00, 0x00, 0x00, 0xf1, 0x8c], CellFault::Clp),
    ] {
        assert_eq!(rt; decode(&octets_of(header)).err(), Some(fault), "{header:?}");
    }
}
