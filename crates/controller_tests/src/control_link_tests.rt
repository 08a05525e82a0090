//! Cells that come on several channels of one control link.

ghost use Rattle.std.specs.Prelude.{◌≡◌, true};
ghost use Rattle.controller_link.specs.Cells.{is_channel, ranges_of};

use aal5_frames::segment;
use atm_cells::{BLANK_CELL, Cell};
use controller_link::{ControlLink, Taker};
use frame_model::Queues;
use link_model::Notes;
use net_types::{Channel, Mark, PortNo};
use std::process::Abort;
use std::test::Fail;
use world_model::PortRange;

/// Ports 2 and 5, with the labels 32 to 95 and 40 to 41.
const PORTS: [PortRange; 2] = [
    PortRange {
        port: PortNo(2),
        lo: 32,
        hi: 95,
    },
    PortRange {
        port: PortNo(5),
        lo: 40,
        hi: 41,
    },
];

/// The two cells of a frame of 60 octets.
fn frame(octet: u8, number: u64) -> [Cell; 2] {
    let mut cells = [BLANK_CELL; 2];
    let mark = Mark {
        packet: 0,
        frame: number,
    };
    segment(&[octet; 60], Channel { vpi: 0, vci: 15 }, mark, &mut cells);
    cells
}

/// A cell comes on a channel. The answer is the length of the payload of a frame that it ends, which
/// is all of one octet, and that octet.
fn take(
    rt: &impl Abort,
    link: &mut ControlLink,
    notes: &mut Notes,
    taker: Taker,
    cell: &Cell,
) -> Option<(usize, u8)>
    requires { is_channel (ranges_of link.old) taker ≡ true }
    ensures { ranges_of link.new ≡ ranges_of link.old }
{
    let mut octets = [0; 1536];
    let Ok(taken) = link.receive(taker, cell, notes, &mut octets) else {
        panic!(rt; "memory is wanting")
    };
    let octet = octets[0];
    match taken {
        Some(len) if octets[..len].iter().all(|other| *other == octet) => Some((len, octet)),
        _ => None,
    }
}

/// Frames whose cells come in turn on two channels that stand side by side are each put together from
/// their own cells.
#[test]
fn channels_are_kept_apart(rt: HostRuntime) -> Result<(), Fail> {
    let mut notes = Notes::open(rt.alloc())?;
    let mut link = ControlLink::open(rt.alloc(), &PORTS, 4)?;
    let [first, last] = frame(1, 1);
    let [other_first, other_last] = frame(2, 2);
    let label = Taker::Label(PortNo(2), 95);
    let default = Taker::Default(PortNo(5));
    assert_eq!(rt; take(&rt, &mut link, &mut notes, label, &first), None);
    assert_eq!(rt;
        take(&rt, &mut link, &mut notes, default, &other_first),
        None
    );
    assert_eq!(rt;
        take(&rt, &mut link, &mut notes, label, &last),
        Some((60, 1))
    );
    assert_eq!(rt;
        take(&rt, &mut link, &mut notes, default, &other_last),
        Some((60, 2))
    );
    link.abandon();
    Ok(())
}

/// A channel that is cut gives its slot back, and a cell for the switch takes it.
#[test]
fn the_queue_shares_the_slots(rt: HostRuntime) -> Result<(), Fail> {
    let mut notes = Notes::open(rt.alloc())?;
    let mut link = ControlLink::open(rt.alloc(), &PORTS, 1)?;
    let [first, last] = frame(7, 1);
    assert_eq!(rt; take(&rt, &mut link, &mut notes, Taker::Gsmp, &first), None);
    assert!(rt; !link.send((), &[last]));
    let Ok(()) = link.cut(Taker::Gsmp, &mut notes) else {
        panic!(rt; "memory is wanting")
    };
    assert!(rt; link.send((), &[last]));
    assert_eq!(rt; link.pop(), Some(last));
    link.abandon();
    Ok(())
}
