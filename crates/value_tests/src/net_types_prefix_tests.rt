//! Tests of `net_types`.

use net_types::*;

/// RFC 1918's greatest block, the default route and a host route: an address, and whether it is covered.
const COVERED: [(u32, u8, u32, bool); 5] = [
    (0x0a00_0000, 8, 0x0aff_ffff, true),
    (0x0a00_0000, 8, 0x0b00_0000, false),
    (0, 0, 0xffff_ffff, true),
    (0x0a00_0301, 32, 0x0a00_0301, true),
    (0x0a00_0301, 32, 0x0a00_0300, false),
];

#[test]
fn prefixes_cover_their_blocks(rt: HostRuntime) {
    for &(first, len, addr, covered) in &COVERED {
        let Ok(prefix) = Prefix::new(Addr(first), len) else {
            panic!(rt; "it is a prefix")
        };
        assert_eq!(rt; prefix.covers(Addr(addr)), covered);
    }
}
