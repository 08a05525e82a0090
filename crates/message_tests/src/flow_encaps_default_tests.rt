//! Tests of `flow_encaps`.

use flow_encaps::*;

/// The LLC/SNAP header of RFC 1483 4.1 before the first octets of a packet.
const PAYLOAD: [u8; 12] = [
    0xaa, 0xaa, 0x03, 0x00, 0x00, 0x00, 0x08, 0x00, 0x45, 0x00, 0x00, 0x1c,
];

#[test]
fn a_packet_stands_behind_llc_snap(rt: HostRuntime) {
    let mut out = [0; 12];
    assert_eq!(rt; wrap_default(&[0x45, 0x00, 0x00, 0x1c], &mut out), 12);
    assert_eq!(rt; out, PAYLOAD);
    assert_eq!(rt; unwrap_default(&PAYLOAD[..8]), Ok([].as_slice()));
    assert_eq!(rt; unwrap_default(&PAYLOAD[..7]), Err(EncapsFault::Short));
}

#[test]
fn each_octet_of_llc_snap_is_tested(rt: HostRuntime) {
    for place in 0..8usize {
        let mut payload = PAYLOAD;
        payload[place] ^= 1;
        assert_eq!(rt;
            unwrap_default(&payload),
            Err(EncapsFault::BadSnap),
            "{place}"
        );
    }
}
