//! Tests of `crossbar_model`.

use crossbar_model::*;
use net_types::{Channel, End, PortNo};

/// Port, VPI and VCI of a channel, and whether it is connected where a switch with port 1 has one path, and where
/// it has 16.
const CHANNELS: [(u8, u16, u16, bool, bool); 15] = [
    (1, 0, 15, true, true),
    (1, 3, 15, false, false),
    (1, 0, 32, true, true),
    (1, 0, 1023, true, true),
    (1, 0, 31, false, false),
    (1, 0, 1024, false, false),
    (1, 3, 40, false, true),
    (1, 16, 40, false, false),
    (0, 16, 15, true, true),
    (0, 16, 40, true, true),
    (0, 19, 40, false, true),
    (0, 32, 40, false, false),
    (0, 0, 15, false, false),
    (0, 0, 40, false, false),
    (2, 0, 40, false, false),
];

#[test]
fn channels_that_are_connected(rt: HostRuntime) {
    for &(port, vpi, vci, of_one, of_sixteen) in &CHANNELS {
        let end = End {
            port: PortNo(port),
            channel: Channel { vpi, vci },
        };
        assert_eq!(rt; is_connectable(&[PortNo(1)], 1, end), of_one);
        assert_eq!(rt; is_connectable(&[PortNo(1)], 16, end), of_sixteen);
    }
}
