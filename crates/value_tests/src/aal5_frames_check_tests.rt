//! Tests of `aal5_frames`.

use aal5_frames::*;

/// A PDU of 40 octets 3, 10, 17 and on modulo 256, without pad. This CRC and the next were
/// computed by zlib, over the octets with the bits of each turned round.
const FULL: [u8; 48] = [
    0x03, 0x0a, 0x11, 0x18, 0x1f, 0x26, 0x2d, 0x34, 0x3b, 0x42, 0x49, 0x50, 0x57, 0x5e, 0x65, 0x6c,
    0x73, 0x7a, 0x81, 0x88, 0x8f, 0x96, 0x9d, 0xa4, 0xab, 0xb2, 0xb9, 0xc0, 0xc7, 0xce, 0xd5, 0xdc,
    0xe3, 0xea, 0xf1, 0xf8, 0xff, 0x06, 0x0d, 0x14, 0x00, 0x00, 0x00, 0x28, 0x0f, 0xe5, 0xca, 0xba,
];

/// A PDU of ten octets whose pad is FF and whose UU is 5.
const PADDED: [u8; 48] = [
    0x03, 0x0a, 0x11, 0x18, 0x1f, 0x26, 0x2d, 0x34, 0x3b, 0x42, 0xff, 0xff, 0xff, 0xff, 0xff, 0xff,
    0xff, 0xff, 0xff, 0xff, 0xff, 0xff, 0xff, 0xff, 0xff, 0xff, 0xff, 0xff, 0xff, 0xff, 0xff, 0xff,
    0xff, 0xff, 0xff, 0xff, 0xff, 0xff, 0xff, 0xff, 0x05, 0x00, 0x00, 0x0a, 0xd0, 0x96, 0x46, 0x14,
];

#[test]
fn pad_and_uu_are_not_read(rt: HostRuntime) {
    assert_eq!(rt; check_pdu(&FULL), Ok(40));
    assert_eq!(rt; check_pdu(&PADDED), Ok(10));
}

/// Octets of `FULL` that are changed, and the refusal. Each passes the tests before its own.
const CHANGED: [(usize, u8, FrameFault); 8] = [
    (41, 1, FrameFault::Cpi),
    (42, 1, FrameFault::Length),
    (43, 0, FrameFault::Length),
    (43, 41, FrameFault::Length),
    (43, 39, FrameFault::Crc),
    (0, 2, FrameFault::Crc),
    (40, 1, FrameFault::Crc),
    (47, 0xbb, FrameFault::Crc),
];

/// So many zeros but for the 92nd octet, and the refusal. Of 96 octets, where that is the Length, 40 of payload would
/// leave a pad of 48, and 41 leave one of 47.
const ZEROS: [(usize, u8, FrameFault); 6] = [
    (0, 0, FrameFault::Empty),
    (47, 0, FrameFault::Size),
    (96, 40, FrameFault::Length),
    (96, 41, FrameFault::Crc),
    (1536, 0, FrameFault::Length),
    (1584, 0, FrameFault::Size),
];

#[test]
fn octets_are_refused_by_cause(rt: HostRuntime) {
    for &(place, octet, fault) in &CHANGED {
        assert!(rt; place < 48);
        let mut octets = FULL;
        octets[place] = octet;
        assert_eq!(rt; check_pdu(&octets), Err(fault), "{octet} at {place}");
    }
    for &(size, length, fault) in &ZEROS {
        assert!(rt; size <= 1584);
        let mut octets = [0; 1584];
        octets[91] = length;
        assert_eq!(rt; check_pdu(&octets[..size]), Err(fault), "{size}");
    }
}
