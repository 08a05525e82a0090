//! What a switch answers and enters.

ghost use Rattle.std.specs.Prelude.{◌≡◌, ◌≤◌, true, length, IfOk};
ghost use Rattle.gsmp_wire.specs.Range.{IsInRange};
ghost use Rattle.gsmp_wire.specs.declared.message.Message.TheVariants.{Branch};
ghost use Rattle.world_model.specs.Requests.{is_request};
ghost use Rattle.world_model.specs.Switch.{has_port};

use crate::entries::are_entries;
use aal5_frames::segment;
use atm_cells::{Cell, Header};
use gsmp_switch::Switch;
use gsmp_wire::{BranchKind, Message, PortRows};
use link_model::{Cause, Layer, Notes, Record, Refusal};
use net_types::{Channel, End, Mark, NodeId, Numbers, OutOfMemory, PortNo};
use std::alloc::Global;
use std::marker::Model;
use std::test::Fail;

/// Labels 40 and 41 of port 1, as that port sees them.
const LABEL: Channel = Channel { vpi: 0, vci: 40 };

const OTHER: Channel = Channel { vpi: 0, vci: 41 };

/// The same, as the control port sees them.
const ON_CONTROL: Channel = Channel { vpi: 16, vci: 40 };

const OTHER_ON_CONTROL: Channel = Channel { vpi: 16, vci: 41 };

/// The channel of GSMP.
const GSMP: Channel = Channel { vpi: 0, vci: 15 };

/// No channel.
const NOWHERE: Channel = Channel { vpi: 0, vci: 0 };

/// A request with its session.
#[derive(Clone, Copy)]
enum Ask {
    /// Add Branch from a port to port 0.
    Add(u32, u32, Channel, Channel),
    /// Move Branch of label 40 of port 1, between channels of port 0.
    Move(u32, Channel, Channel),
    /// Delete Tree of an input of port 1.
    Delete(u32, Channel),
    /// Verify Tree of an input of port 1.
    Verify(u32, Channel),
    /// Delete All of port 1.
    DeleteAll(u32),
    /// Take Down of port 1.
    TakeDown(u32),
    /// All Ports.
    AllPorts,
}

/// A Connection Management message of one branch, from a port to port 0.
fn branch_message(
    kind: BranchKind,
    session: u32,
    input_port: u32,
    input: Channel,
    output: Channel,
) -> Message
    ensures { result ≡ Branch kind 2 0 7 session input_port input 0 output 0 0 }
{
    Message::Branch {
        kind,
        result: 2,
        code: 0,
        transaction: 7,
        session,
        input_port,
        input,
        output_port: 0,
        output,
        branches: 0,
        priority: 0,
    }
}

/// The request as a message.
fn message_of(ask: Ask) -> Message
    ensures request { is_request result ≡ true }
    ensures range { IsInRange result }
{
    match ask {
        Ask::Add(session, port, input, output) => {
            branch_message(BranchKind::Add, session, port, input, output)
        }
        Ask::Move(session, from, to) => Message::Move {
            result: 2,
            code: 0,
            transaction: 7,
            session,
            input_port: 1,
            input: LABEL,
            output_port: 0,
            output: from,
            target_port: 0,
            target: to,
            branches: 0,
            priority: 0,
        },
        Ask::Delete(session, input) => branch_message(
            BranchKind::Delete,
            session,
            1,
            input,
            NOWHERE,
        ),
        Ask::Verify(session, input) => branch_message(
            BranchKind::Verify,
            session,
            1,
            input,
            NOWHERE,
        ),
        Ask::DeleteAll(session) => branch_message(
            BranchKind::DeleteAll,
            session,
            1,
            NOWHERE,
            NOWHERE,
        ),
        Ask::TakeDown(session) => Message::Port {
            result: 2,
            code: 0,
            transaction: 7,
            port: 1,
            session,
            function: 2,
        },
        Ask::AllPorts => Message::AllPorts {
            result: 2,
            code: 0,
            transaction: 7,
            rows: PortRows::new(),
        },
    }
}

/// Result and Code of an answer, and Branches, the new session or the number of records.
fn outcome(answer: &Message) -> (u8, u8, u32) {
    match answer {
        Message::Branch {
            result,
            code,
            branches,
            ..
        } => (*result, *code, *branches as u32),
        Message::Move {
            result,
            code,
            branches,
            ..
        } => (*result, *code, *branches as u32),
        Message::Port {
            result,
            code,
            session,
            ..
        } => (*result, *code, *session),
        Message::AllPorts {
            result,
            code,
            rows,
            ..
        } => (*result, *code, rows.len() as u32),
        Message::Adjacency(_) => (0, 0, 0),
    }
}

/// A new switch with port 1 and so many slots, the first to draw a number, so that its sessions are 1.
fn opened(alloc: Global, slots: usize) -> Result<Switch, OutOfMemory>
    requires { (1 ≤ slots) × (slots ≤ 16384) }
    ensures { IfOk result (λ s. has_port s.ports (record { 0 = 1 }) ≡ true) }
{
    let mut numbers = Numbers::new();
    Switch::open(alloc, NodeId(1), &[PortNo(1)], slots, 1, &mut numbers)
}

/// The switch and its notes. It must be closed.
#[must_use]
struct Bench {
    switch: Switch,
    notes: Notes,
}

impl Model for Bench {
    ghost Value = { Unit {0} };

    ghost view = { λ _. tt };
}

impl Bench {
    /// A new switch with so many slots.
    fn open(alloc: Global, slots: usize) -> Result<Bench, OutOfMemory>
        requires { (1 ≤ slots) × (slots ≤ 16384) }
    {
        let notes = Notes::open(alloc)?;
        let switch = opened(alloc, slots)?;
        Ok(Bench { switch, notes })
    }

    /// What comes of a request; zeros for want of memory.
    fn ask(&mut self, ask: Ask) -> (u8, u8, u32) {
        match self.switch.handle(&message_of(ask), &mut self.notes) {
            Ok(answer) => outcome(&answer),
            Err(_) => (0, 0, 0),
        }
    }

    /// A cell comes on a port. False for want of memory.
    fn receive(&mut self, port: u8, cell: &Cell) -> bool {
        let mut numbers = Numbers::new();
        self.switch
            .receive(PortNo(port), cell, &mut numbers, &mut self.notes)
            .is_ok()
    }

    /// A cell of the frame 0.`frame` comes on a port. False for want of memory.
    fn take(&mut self, port: u8, channel: Channel, frame: u64, last: bool) -> bool {
        let cell = Cell {
            header: Header { channel, last },
            payload: [0; 48],
            mark: Mark { packet: 0, frame },
        };
        self.receive(port, &cell)
    }

    /// A frame of the controller comes, in one cell. False for want of memory.
    fn hear(&mut self, message: &[u8]) -> bool
        requires { (1 ≤ length message.now) × (length message.now ≤ 40) }
    {
        let mark = Mark {
            packet: 0,
            frame: 100,
        };
        let mut cells = [Cell {
            header: Header {
                channel: GSMP,
                last: false,
            },
            payload: [0; 48],
            mark,
        }];
        segment(message, GSMP, mark, &mut cells);
        self.notes.made(mark, message).is_ok() && self.receive(0, &cells[0])
    }

    /// Whether the next cell to the controller is the frame of this message, and there is none where
    /// there is no message.
    fn says(&mut self, message: Option<&[u8; 40]>) -> bool {
        match (self.switch.pop(PortNo(0)), message) {
            (Some(cell), Some(message)) => cell.header.last && cell.payload[..40] == message[..],
            (None, None) => true,
            _ => false,
        }
    }

    /// The header of the next cell at port 1.
    fn waits(&mut self) -> Option<Header> {
        let cell = self.switch.pop(PortNo(1))?;
        Some(cell.header)
    }

    /// The switch starts anew. False for want of memory.
    fn restart(&mut self) -> bool {
        let mut numbers = Numbers::new();
        self.switch.restart(&mut numbers, &mut self.notes).is_ok()
    }

    /// A tick goes by. False for want of memory.
    fn tick(&mut self) -> bool {
        let mut numbers = Numbers::new();
        self.switch.tick(&mut numbers, &mut self.notes).is_ok()
    }

    /// Gives up the switch.
    fn close(self) {
        let Bench { switch, notes: _ } = self;
        switch.abandon();
    }
}

/// Requests to a switch, and what comes of each.
const REQUESTS: [(Ask, (u8, u8, u32)); 19] = [
    // Add Branch succeeds where the branch is there; then the failures, by code.
    (Ask::Add(1, 1, LABEL, ON_CONTROL), (3, 0, 1)),
    (Ask::Add(1, 1, LABEL, ON_CONTROL), (3, 0, 1)),
    (Ask::Add(1, 1, LABEL, OTHER_ON_CONTROL), (4, 5, 0)),
    (Ask::Add(2, 1, LABEL, ON_CONTROL), (4, 2, 0)),
    (Ask::Add(1, 3, LABEL, ON_CONTROL), (4, 1, 0)),
    (Ask::Add(1, 300, LABEL, ON_CONTROL), (4, 1, 0)),
    (Ask::Verify(1, OTHER), (4, 6, 0)),
    (Ask::Move(1, OTHER_ON_CONTROL, OTHER_ON_CONTROL), (4, 6, 0)),
    (Ask::Add(1, 1, OTHER, LABEL), (4, 4, 0)),
    // What holds already succeeds.
    (Ask::Verify(1, LABEL), (3, 0, 1)),
    (Ask::Move(1, ON_CONTROL, OTHER_ON_CONTROL), (3, 0, 1)),
    (Ask::Move(1, ON_CONTROL, OTHER_ON_CONTROL), (3, 0, 1)),
    (Ask::Delete(1, LABEL), (3, 0, 0)),
    (Ask::Delete(1, LABEL), (3, 0, 0)),
    // Take Down ends the branches and begins a session; then PortDown.
    (Ask::Add(1, 1, LABEL, ON_CONTROL), (3, 0, 1)),
    (Ask::DeleteAll(1), (3, 0, 0)),
    (Ask::TakeDown(1), (3, 0, 2)),
    (Ask::Add(2, 1, LABEL, ON_CONTROL), (4, 3, 0)),
    (Ask::AllPorts, (3, 0, 2)),
];

#[test]
fn requests_are_answered(rt: HostRuntime) -> Result<(), Fail> {
    let mut bench = Bench::open(rt.alloc(), 4)?;
    for &(ask, want) in &REQUESTS {
        assert_eq!(rt; bench.ask(ask), want);
    }
    assert_eq!(rt; bench.notes.len(), 0);
    bench.close();
    Ok(())
}

/// Cells of labels and of the chain of the GSMP channel, by port, channel, frame and whether it is a last one, to a
/// switch with two slots.
const CELLS: [(u8, Channel, u64, bool); 8] = [
    // Unconnected; a slot each; then PoolFull, and the GSMP channel skips to its next last cell.
    (1, OTHER, 1, true),
    (1, LABEL, 2, false),
    (0, GSMP, 3, false),
    (1, LABEL, 2, true),
    (0, GSMP, 4, false),
    (0, GSMP, 4, false),
    (0, GSMP, 5, true),
    (0, GSMP, 6, false),
];

/// What is entered, also by a restart, which cuts what is open on the branch, and then the chain.
const ENTERED: [(u64, Cause); 7] = [
    (1, Cause::Unconnected),
    (2, Cause::PoolFull),
    (4, Cause::PoolFull),
    (3, Cause::Broken),
    (5, Cause::Broken),
    (2, Cause::Cut),
    (6, Cause::Cut),
];

/// Label 40 of port 1.
const INPUT: End = End {
    port: PortNo(1),
    channel: LABEL,
};

/// A cell that is queued stays at the restart.
#[test]
fn cells_are_switched_or_entered(rt: HostRuntime) -> Result<(), Fail> {
    let mut bench = Bench::open(rt.alloc(), 2)?;
    assert_eq!(rt; bench.ask(Ask::Add(1, 1, LABEL, ON_CONTROL)), (3, 0, 1));
    for &(port, channel, frame, last) in &CELLS {
        assert!(rt; bench.take(port, channel, frame, last));
    }
    assert!(rt; bench.restart());
    assert!(rt; are_entries(&bench.notes, &ENTERED));
    assert_eq!(rt; bench.switch.branch(INPUT), None);
    assert_eq!(rt; bench.switch.fabric().free(), 1);
    assert!(rt; !bench.says(None));
    assert_eq!(rt; bench.switch.switched(), 0);
    bench.close();
    Ok(())
}

/// A SYN of the first node's controller, of instance 5.
const SYN: [u8; 40] = [
    0xaa, 0xaa, 3, 0, 0, 0, 0x88, 0x0c, 1, 10, 0, 1, 2, 0, 0, 0, 0, 1, 0, 0, 0, 0, 0, 0, 0, 0, 0,
    0, 0, 0, 0, 0, 0, 0, 0, 5, 0, 0, 0, 0,
];

/// The SYNACK of its switch, of instance 1.
const SYNACK: [u8; 40] = [
    0xaa, 0xaa, 3, 0, 0, 0, 0x88, 0x0c, 1, 10, 0, 2, 2, 0, 0, 0, 1, 1, 2, 0, 0, 0, 0, 1, 0, 0, 0,
    0, 0, 0, 0, 0, 0, 0, 0, 1, 0, 0, 0, 5,
];

/// The controller's ACK.
const ACK: [u8; 40] = [
    0xaa, 0xaa, 3, 0, 0, 0, 0x88, 0x0c, 1, 10, 0, 3, 2, 0, 0, 0, 0, 1, 2, 0, 0, 0, 1, 1, 0, 0, 0,
    0, 0, 0, 0, 0, 0, 0, 0, 5, 0, 0, 0, 1,
];

/// Add Branch, transaction 5, session 1, from 1 0/40 to 0 16/40.
const ADD: [u8; 40] = [
    0xaa, 0xaa, 3, 0, 0, 0, 0x88, 0x0c, 1, 16, 2, 0, 0, 0, 0, 5, 0, 0, 0, 1, 0, 0, 0, 1, 0, 0, 0,
    40, 0, 0, 0, 0, 0, 16, 0, 40, 0, 0, 0, 0,
];

/// Its success answer: Result 3, Branches 1.
const ADDED: [u8; 40] = [
    0xaa, 0xaa, 3, 0, 0, 0, 0x88, 0x0c, 1, 16, 3, 0, 0, 0, 0, 5, 0, 0, 0, 1, 0, 0, 0, 1, 0, 0, 0,
    40, 0, 0, 0, 0, 0, 16, 0, 40, 0, 1, 0, 0,
];

/// What is heard, and what is said to it: a request isn't taken before the two know each other.
const HEARD: [(&[u8; 40], Option<&[u8; 40]>); 4] = [
    (&SYN, Some(&SYNACK)),
    (&ADD, None),
    (&ACK, None),
    (&ADD, Some(&ADDED)),
];

/// Whether the first record is that of a message of a wrong size.
fn is_bad(notes: &Notes) -> bool {
    matches!(
        notes.at(0),
        Some(Record::Bad {
            node: NodeId(1),
            layer: Layer::Gsmp,
            name: Refusal::Size,
        })
    )
}

#[test]
fn a_controller_is_answered(rt: HostRuntime) -> Result<(), Fail> {
    let mut bench = Bench::open(rt.alloc(), 4)?;
    for &(message, answer) in &HEARD {
        assert!(rt; bench.hear(message));
        assert!(rt; bench.says(answer));
    }
    assert_eq!(rt; bench.notes.len(), 0);
    assert!(rt; bench.hear(&ADD[..39]));
    assert!(rt; is_bad(&bench.notes));
    assert!(rt; bench.tick());
    assert!(rt; !bench.says(None));
    assert_eq!(rt; bench.notes.len(), 1);
    bench.close();
    Ok(())
}

/// The mark of a forged frame.
const FORGED: Mark = Mark {
    packet: 0,
    frame: 9,
};

/// A new switch with so many slots, at whose port 1 a frame of two cells is forged.
fn forged(alloc: Global, slots: usize) -> Result<Bench, OutOfMemory>
    requires { (1 ≤ slots) × (slots ≤ 16384) }
{
    let mut notes = Notes::open(alloc)?;
    let mut switch = opened(alloc, slots)?;
    match switch.forge(PortNo(1), LABEL, &[0; 48], FORGED, &mut notes) {
        Ok(()) => Ok(Bench { switch, notes }),
        Err(error) => {
            switch.abandon();
            Err(error)
        }
    }
}

/// A frame of two cells is queued where two slots are free; else it is entered.
#[test]
fn a_forged_frame_is_queued_whole(rt: HostRuntime) -> Result<(), Fail> {
    let mut lost = forged(rt.alloc(), 1)?;
    assert!(rt; are_entries(&lost.notes, &[(9, Cause::PoolFull)]));
    assert!(rt; lost.notes.ledger().is_frame(FORGED, &[0; 48]));
    assert_eq!(rt; lost.waits(), None);
    lost.close();
    let mut queued = forged(rt.alloc(), 2)?;
    assert_eq!(rt; queued.notes.len(), 0);
    assert!(rt; queued.notes.ledger().is_frame(FORGED, &[0; 48]));
    let first = Header {
        channel: LABEL,
        last: false,
    };
    assert_eq!(rt; queued.waits(), Some(first));
    queued.close();
    Ok(())
}
