//! A controller between two neighbours and its switch.

use aal5_frames::{cells_of, check_pdu, segment};
use atm_cells::{BLANK_CELL, Cell};
use controller::Controller;
use flow_classifier::XyPolicy;
use ipv4_forward::{Next, Table};
use lab_text::read_hex;
use link_model::{Notes, Record};
use net_types::{Addr, Channel, Mark, NodeId, Numbers, OutOfMemory, PortNo, Prefix};
use port_model::Timers;
use port_router::RouterPort;
use std::alloc::Global;
use std::process::Abort;
use std::test::Fail;
use world::NodeController;
use world_model::PortRange;

/// The controller.
type Router = Controller<RouterPort<XyPolicy>>;

/// Its ports, with labels 32 to 95.
const PORTS: [PortRange; 2] = [
    PortRange {
        port: PortNo(1),
        lo: 32,
        hi: 95,
    },
    PortRange {
        port: PortNo(2),
        lo: 32,
        hi: 95,
    },
];

/// Its channel to the switch, and those that stand for the default channels of its ports.
const GSMP: Channel = Channel { vpi: 0, vci: 15 };

const PORT_1: Channel = Channel { vpi: 16, vci: 15 };

const PORT_2: Channel = Channel { vpi: 32, vci: 15 };

/// A frame: its channel, and its octets as hexadecimal digits.
type Frame = (Channel, &'static str);

/// The switch has ports 0, 1 and 2, which are up under sessions 4, 5 and 6. Its transaction is the first.
const PORTS_UP: Frame = (
    GSMP,
    "aaaa03000000880c01420300000000010003000000000000000000040100002003ff000000000001000000050100002003ff000000000002000000060100002003ff0000",
);

/// What comes first, each with the number of its mark: ticks, and frames. The switch, under instance 7, knows
/// the controller; and so do the neighbours at port 1, under instance 9, and at port 2, under instance 8. That
/// of port 2 grants label 32 of it for nine ticks, and a packet of the flow comes, one hop before.
const FIRST_FRAMES: [(u64, Option<Frame>); 8] = [
    (100, None),
    (
        130,
        Some((
            GSMP,
            "aaaa03000000880c010a000202000000010202000000000200000000000000000000000700000001",
        )),
    ),
    (160, None),
    (
        190,
        Some((
            PORT_1,
            "aaaa03000000080045000028000000000165a2700a0001010a0002010101f2f100000009000000020a00020100000001",
        )),
    ),
    (
        220,
        Some((
            PORT_2,
            "aaaa03000000080045000028000000000165a0700a0003010a0002010101f2f100000008000000030a00020100000001",
        )),
    ),
    (
        250,
        Some((
            PORT_2,
            "aaaa0300000008004500003c000000000165a05c0a0003010a0002010104769c0000000800000003000000010104000900000020450003110a0001010a0003011389138a",
        )),
    ),
    (
        280,
        Some((
            PORT_1,
            "aaaa0300000008004500001c0001000004119ecf0a0001010a0003011389138a00080000",
        )),
    ),
    (310, None),
];

/// What comes then, while the grant is lent: a frame, the one that is sent, without so many octets of its head,
/// and how many records there are. The neighbour at port 2 takes label 32 back, and once more: the switch is
/// asked once to lead label 32 of port 1 from there to the controller. At its answer the join is parted, and
/// label 32 of port 2 is given back, once.
const LAST_FRAMES: [(u64, Frame, Option<(Frame, usize)>, usize); 3] = [
    (
        400,
        (
            PORT_2,
            "aaaa0300000008004500003c000000000165a05c0a0003010a000201010576a30000000800000003000000020104000000000020450003110a0001010a0003011389138a",
        ),
        Some((
            (
                GSMP,
                "aaaa03000000880c011602000000000c0000000500000001000000200000000200000020000000000000000000100020",
            ),
            0,
        )),
        0,
    ),
    (
        401,
        (
            PORT_2,
            "aaaa0300000008004500003c000000000165a05c0a0003010a000201010576a20000000800000003000000030104000000000020450003110a0001010a0003011389138a",
        ),
        None,
        0,
    ),
    (
        402,
        (
            GSMP,
            "aaaa03000000880c011603000000000c0000000500000001000000200000000200000020000100000000000000100020",
        ),
        Some((
            (
                PORT_2,
                "010676a30000000300000008000000010104000000000020450003110a0001010a0003011389138a",
            ),
            28,
        )),
        1,
    ),
];

/// A controller of node 2, at 10.0.2.1, that offers each flow a label at its first packet. What goes to
/// 10.0.3.0/24 goes by port 2.
fn opened(rt: &impl Abort, alloc: Global) -> Result<Router, OutOfMemory> {
    let Ok(prefix) = Prefix::new(Addr(0x0a00_0300), 24) else {
        panic!(rt; "it is a prefix")
    };
    let mut table = Table::open(alloc)?;
    let added = table.add(prefix, Next::Via(PortNo(2)));
    assert!(rt; added.is_ok(), "the table has room");
    let timers = Timers {
        lifetime: 20,
        refresh: 5,
        window: 8,
    };
    let policy = XyPolicy { x: 1, idle: 100 };
    let mut numbers = Numbers::new();
    Router::open(
        alloc,
        NodeId(2),
        Addr(0x0a00_0201),
        table,
        &PORTS,
        64,
        timers,
        policy,
        &mut numbers,
    )
}

/// A cell comes from the switch.
fn receive(
    rt: &impl Abort,
    router: &mut Router,
    cell: &Cell,
    notes: &mut Notes,
) -> Result<(), OutOfMemory> {
    assert!(rt; cell.mark.frame < 1000);
    let mut numbers = Numbers::new();
    router.receive(cell, &mut numbers, notes)
}

/// A frame comes from the switch, of at most two cells.
fn give(
    rt: &impl Abort,
    router: &mut Router,
    number: u64,
    channel: Channel,
    payload: &[u8],
    notes: &mut Notes,
) -> Result<(), OutOfMemory> {
    assert!(rt; payload.len() >= 1);
    assert!(rt; payload.len() <= 88);
    assert!(rt; cells_of(payload.len()) <= 2);
    let mark = Mark {
        packet: 0,
        frame: number,
    };
    notes.made(mark, payload)?;
    let mut cells = [BLANK_CELL; 2];
    let count = segment(payload, channel, mark, &mut cells);
    receive(rt, router, &cells[0], notes)?;
    if count > 1 {
        receive(rt, router, &cells[1], notes)?;
    }
    Ok(())
}

/// The octets that these hexadecimal digits spell.
fn octets_of(rt: &impl Abort, alloc: Global, digits: &str) -> Result<Vec<u8>, OutOfMemory> {
    match read_hex(alloc, digits.as_bytes())? {
        Some(octets) => Ok(octets),
        None => panic!(rt; "digits spell octets"),
    }
}

/// This frame comes from the switch.
fn tell(
    rt: &impl Abort,
    alloc: Global,
    router: &mut Router,
    number: u64,
    frame: Frame,
    notes: &mut Notes,
) -> Result<(), OutOfMemory> {
    let (channel, digits) = frame;
    let octets = octets_of(rt, alloc, digits)?;
    give(rt, router, number, channel, octets.as_slice(), notes)
}

/// A tick goes by.
fn tick(router: &mut Router, notes: &mut Notes) -> Result<(), OutOfMemory> {
    let mut numbers = Numbers::new();
    router.tick(&mut numbers, notes)
}

/// Takes the first frame that waits for the switch, of at most two cells: its channel, and its octets in
/// `out`.
fn take(rt: &impl Abort, router: &mut Router, out: &mut [u8; 96]) -> Option<(Channel, usize)> {
    let first = router.pop()?;
    out[..48].copy_from_slice(&first.payload);
    let mut size = 48;
    if !first.header.last {
        let Some(second) = router.pop() else {
            panic!(rt; "a frame has a last cell")
        };
        assert!(rt; second.header.last, "a frame has at most two cells");
        out[48..].copy_from_slice(&second.payload);
        size = 96;
    }
    match check_pdu(&out[..size]) {
        Ok(len) => Some((first.header.channel, len)),
        Err(_fault) => panic!(rt; "a frame passes its test"),
    }
}

/// The switch does each request that waits, and tells of its ports where it is asked; what else waits is
/// taken. The marks of the answers begin at `number`.
fn serve(
    rt: &impl Abort,
    alloc: Global,
    router: &mut Router,
    number: u64,
    notes: &mut Notes,
) -> Result<(), OutOfMemory> {
    assert!(rt; number < 1000);
    for place in 0..20 {
        let mut octets = [0; 96];
        let Some((channel, len)) = take(rt, router, &mut octets) else {
            return Ok(());
        };
        if channel == GSMP && octets[10] == 2 {
            let mark = number + place;
            octets[10] = 3;
            match octets[9] {
                66 => tell(rt, alloc, router, mark, PORTS_UP, notes)?,
                kind => {
                    if kind == 16 || kind == 22 {
                        octets[37] = 1;
                    }
                    assert!(rt; len <= 96);
                    give(rt, router, mark, GSMP, &octets[..len], notes)?;
                }
            }
        }
    }
    panic!(rt; "the controller asks on and on")
}

/// The controller meets its switch and its neighbours, has a grant at port 2, hands label 32 out at port 1,
/// and joins it to the grant's.
fn lead_up(
    rt: &impl Abort,
    alloc: Global,
    router: &mut Router,
    notes: &mut Notes,
) -> Result<(), OutOfMemory> {
    for &(number, coming) in &FIRST_FRAMES {
        match coming {
            Some(frame) => tell(rt, alloc, router, number, frame, notes)?,
            None => tick(router, notes)?,
        }
        serve(rt, alloc, router, number + 1, notes)?;
    }
    Ok(())
}

/// Whether the last record is that label 32 of port 1 is joined to label 32 of port 2.
fn is_joined(notes: &Notes) -> bool {
    match notes.records().last() {
        Some(
            Record::Join {
                node: NodeId(2),
                port: PortNo(1),
                vci: 32,
                to_port: PortNo(2),
                to_vci: 32,
            },
        ) => true,
        _ => false,
    }
}

/// Whether there is one record, that label 32 of port 1 is parted.
fn is_parted(notes: &Notes) -> bool {
    match notes.records() {
        [
            Record::Part {
                node: NodeId(2),
                port: PortNo(1),
                vci: 32,
            },
        ] => true,
        _ => false,
    }
}

/// Takes the first frame that waits for the switch. It is this one, behind so many other octets.
fn expect(
    rt: &impl Abort,
    alloc: Global,
    router: &mut Router,
    frame: Frame,
    skipped: usize,
) -> Result<(), OutOfMemory> {
    let (channel, digits) = frame;
    let wanted = octets_of(rt, alloc, digits)?;
    let mut octets = [0; 96];
    let Some((found, len)) = take(rt, router, &mut octets) else {
        panic!(rt; "a frame waits")
    };
    assert_eq!(rt; found, channel);
    assert!(rt; len <= 96);
    assert!(rt; skipped <= len);
    assert_eq!(rt; &octets[skipped..len], wanted.as_slice());
    Ok(())
}

/// The grant is taken back while it is lent.
fn take_back(
    rt: &impl Abort,
    alloc: Global,
    router: &mut Router,
    notes: &mut Notes,
) -> Result<(), OutOfMemory> {
    for &(number, frame, sent, records) in &LAST_FRAMES {
        tell(rt, alloc, router, number, frame, notes)?;
        if let Some((answer, skipped)) = sent {
            expect(rt, alloc, router, answer, skipped)?;
        }
        assert_eq!(rt; router.pop(), None);
        assert_eq!(rt; notes.len(), records);
    }
    Ok(())
}

/// It leads up to the join, and takes it back.
fn live(
    rt: &impl Abort,
    alloc: Global,
    router: &mut Router,
    notes: &mut Notes,
) -> Result<(), OutOfMemory> {
    lead_up(rt, alloc, router, notes)?;
    assert!(rt; is_joined(notes));
    notes.clear();
    take_back(rt, alloc, router, notes)?;
    assert!(rt; is_parted(notes));
    Ok(())
}

#[test]
fn a_lent_grant_is_taken_back(rt: HostRuntime) -> Result<(), Fail> {
    let mut notes = Notes::open(rt.alloc())?;
    let mut router = opened(&rt, rt.alloc())?;
    let lived = live(&rt, rt.alloc(), &mut router, &mut notes);
    router.abandon();
    lived?;
    Ok(())
}
