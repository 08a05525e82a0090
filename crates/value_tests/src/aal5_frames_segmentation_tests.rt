//! Tests of `aal5_frames`.

use aal5_frames::*;
use atm_cells::BLANK_CELL;
use net_types::{Channel, Mark};

/// By the length of a payload of octets 3, 10, 17 and on modulo 256: the cells and the CRC of its
/// PDU, which is the end of the last one. The CRCs are zlib's over the octets with the bits of each turned round, turned round.
const FRAMES: [(usize, usize, u32); 16] = [
    (1, 1, 0xf645b054),
    (39, 1, 0x948cfa88),
    (40, 1, 0x0fe5caba),
    (41, 2, 0x05f41ccb),
    (47, 2, 0xd090d543),
    (48, 2, 0x7403a3e5),
    (49, 2, 0x138d310b),
    (87, 2, 0x55b27f24),
    (88, 2, 0x48a643eb),
    (89, 3, 0x51affb37),
    (1480, 31, 0xf08e0329),
    (1499, 32, 0x39cbdd35),
    (1500, 32, 0x278c8d30),
    (1508, 32, 0xd50b61c3),
    (1527, 32, 0xc158dc9e),
    (1528, 32, 0xd2bde742),
];

const CHANNEL: Channel = Channel { vpi: 0, vci: 15 };

const MARK: Mark = Mark {
    packet: 1,
    frame: 2,
};

#[test]
fn payloads_go_into_cells(rt: HostRuntime) {
    let mut payload = [0; 1528];
    for place in 0..1528usize {
        payload[place] = ((7 * place + 3) % 256) as u8;
    }
    for &(len, cells, crc) in &FRAMES {
        assert!(rt; 1 <= len && len <= 1528);
        let mut out = [BLANK_CELL; 32];
        let count = segment(&payload[..len], CHANNEL, MARK, &mut out);
        assert_eq!(rt; count, cells, "{len}");
        let octets = out[count - 1].payload;
        let field = u32::from_be_bytes([octets[44], octets[45], octets[46], octets[47]]);
        assert_eq!(rt; field, crc, "{len}");
    }
}
