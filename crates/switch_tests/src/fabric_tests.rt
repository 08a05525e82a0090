//! What a fabric does with cells.

use atm_cells::{Cell, Header};
use fabric::{Fabric, Routed};
use net_types::{Channel, End, Mark, PortNo};
use std::test::Fail;

/// Label 40 of port 1.
const LABEL: End = End {
    port: PortNo(1),
    channel: Channel { vpi: 0, vci: 40 },
};

/// The channel of the control port that stands for it.
const ON_CONTROL: End = End {
    port: PortNo(0),
    channel: Channel { vpi: 16, vci: 40 },
};

/// The last cell of a frame on VCI `vci`.
fn cell(vci: u16, frame: u64) -> Cell {
    Cell {
        header: Header {
            channel: Channel { vpi: 0, vci },
            last: true,
        },
        payload: [9; 48],
        mark: Mark { packet: 1, frame },
    }
}

/// A queue takes as many cells as there are slots, and one more finds none.
#[test]
fn a_queue_grows_to_the_region(rt: HostRuntime) -> Result<(), Fail> {
    let mut fabric = Fabric::open(rt.alloc(), &[PortNo(1)], 1100, 1)?;
    fabric.connect(LABEL, ON_CONTROL);
    for frame in 0..1100 {
        let routed = fabric.switch_cell(PortNo(1), &cell(40, frame));
        assert_eq!(rt; routed, Routed::Out(ON_CONTROL));
    }
    let routed = fabric.switch_cell(PortNo(1), &cell(40, 1100));
    assert_eq!(rt; routed, Routed::PoolFull);
    fabric.abandon();
    Ok(())
}

/// One slot, and a branch from port 1 to port 0.
#[test]
fn a_cell_goes_out_where_it_is_connected_and_a_slot_is_free(rt: HostRuntime) -> Result<(), Fail> {
    let mut fabric = Fabric::open(rt.alloc(), &[PortNo(1)], 1, 1)?;
    fabric.connect(LABEL, ON_CONTROL);
    let out = Routed::Out(ON_CONTROL);
    assert_eq!(rt; fabric.switch_cell(PortNo(1), &cell(40, 1)), out);
    assert_eq!(rt;
        fabric.switch_cell(PortNo(1), &cell(40, 2)),
        Routed::PoolFull
    );
    let Some(first) = fabric.pop(PortNo(0)) else {
        panic!(rt; "no cell waits at port 0")
    };
    assert_eq!(rt; first.mark.frame, 1);
    assert_eq!(rt; first.header.channel, ON_CONTROL.channel);
    assert_eq!(rt; fabric.switch_cell(PortNo(1), &cell(40, 3)), out);
    assert_eq!(rt;
        fabric.switch_cell(PortNo(1), &cell(41, 4)),
        Routed::Unconnected
    );
    assert_eq!(rt; fabric.branch(LABEL), Some(ON_CONTROL));
    assert_eq!(rt; fabric.first_of(PortNo(1)), Some(LABEL));
    assert_eq!(rt; fabric.first_of(PortNo(0)), None);
    assert_eq!(rt; fabric.region().free(), 0);
    fabric.abandon();
    Ok(())
}
