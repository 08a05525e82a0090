//! Lives of a port.

ghost use Rattle.std.specs.Prelude.{◌≡◌, true, IsTrue, Some};
ghost use Rattle.grant_table.specs.Table.{releases};
ghost use Rattle.keyed_lists.specs.Keyed.{at};
ghost use Rattle.port_model.specs.Grants.{Grant, grant_label, lent_input};
ghost use Rattle.redirect_state.specs.Calls.{is_released_by};
ghost use Rattle.ifmp_wire.specs.Message.{InRange};

use crate::values::{HOME, HOSTS, INPUT, INPUT_HOME, LABEL, carried_out};
use branch_desk::{BranchDone, Desk, redeem};
use flow_classifier::XyPolicy;
use grant_table::GrantState;
use gsmp_wire::Request;
use ifmp_wire::Message;
use ipv4_packet::check;
use link_model::Record;
use net_types::{Addr, Channel, End, Hello, HelloKind, Instance, NodeId, OutOfMemory, PortNo};
use redirect_state::{Action, Actions, Link, Timers};
use std::alloc::Global;
use std::process::Abort;
use std::test::Fail;

/// A packet of the flow, of no more than its header.
const PACKET: [u8; 20] = [
    0x45, 0x00, 0x00, 0x14, 0x00, 0x00, 0x00, 0x00, 0x04, 0x06, 0x9e, 0xe3, 0x0a, 0x00, 0x01, 0x01,
    0x0a, 0x00, 0x03, 0x01,
];

const OWN: Addr = Addr(0x0a00_0201);

const PEER: Addr = Addr(0x0a00_0202);

/// What happens to a port.
#[derive(Clone, Copy, Debug)]
enum Step {
    /// The switch has no branch of it left.
    Clear,
    /// Its peer knows it.
    Open,
    /// Its peer grants label 32 for so many ticks.
    Redirect { number: u32, lifetime: u16 },
    /// The branch of the grant is made.
    Start,
    /// An input is joined to it.
    Lend,
    /// Its peer reclaims it.
    Reclaim { number: u32 },
    /// The input is led to the controller.
    Release,
    /// A tick goes by.
    Tick,
    /// A packet of the flow comes on the default channel.
    Count,
    /// The branch of label 32 to the controller is made.
    Bind,
    /// Its peer expects this number.
    Expect { next: u32 },
    /// Its peer acknowledges that label 32 was reclaimed.
    Acknowledge,
    /// Its peer can send under the labels from 33 on alone.
    Narrow,
    /// The branch of label 32 is deleted.
    Free,
    /// It is reset.
    Reset,
    /// Its controller is.
    Restart,
}

/// A grant is lent, and reclaimed twice: its join is taken back once, and it is acknowledged once its input
/// is released.
const RECLAIMED: [(Step, &[&str]); 8] = [
    (Step::Clear, &[]),
    (Step::Open, &["hello", "opened"]),
    (
        Step::Redirect {
            number: 1,
            lifetime: 9,
        },
        &["add branch"],
    ),
    (Step::Start, &[]),
    (Step::Lend, &[]),
    (Step::Reclaim { number: 2 }, &["take back"]),
    (Step::Reclaim { number: 3 }, &[]),
    (Step::Release, &["reclaim ack"]),
];

/// The lifetime of a lent grant ends at the second tick: its join is taken back, and nothing is owed.
const EXPIRED: [(Step, &[&str]); 8] = [
    (Step::Clear, &[]),
    (Step::Open, &["hello", "opened"]),
    (
        Step::Redirect {
            number: 1,
            lifetime: 2,
        },
        &["add branch"],
    ),
    (Step::Start, &[]),
    (Step::Lend, &[]),
    (Step::Tick, &["hello"]),
    (Step::Tick, &["hello", "take back"]),
    (Step::Release, &[]),
];

/// That of a grant of the controller's ends: it isn't acknowledged when it is reclaimed.
const ENDED: [(Step, &[&str]); 6] = [
    (Step::Clear, &[]),
    (Step::Open, &["hello", "opened"]),
    (
        Step::Redirect {
            number: 1,
            lifetime: 1,
        },
        &["add branch"],
    ),
    (Step::Start, &[]),
    (Step::Tick, &["hello"]),
    (
        Step::Redirect {
            number: 2,
            lifetime: 1,
        },
        &["add branch"],
    ),
];

/// The third packet of a flow gets a label, which is offered; a reset cuts its chain.
const RESET: [(Step, &[&str]); 8] = [
    (Step::Clear, &[]),
    (Step::Open, &["hello", "opened"]),
    (Step::Count, &[]),
    (Step::Count, &[]),
    (Step::Count, &["add branch"]),
    (Step::Bind, &["bind", "redirect"]),
    (Step::Reset, &["record", "cut chain", "request"]),
    (Step::Restart, &[]),
];

/// A label that was idle for more than four ticks is reclaimed at each tick until its peer acknowledges
/// that, and quit once the peer expects a number above the last RECLAIM's, 4.
const QUIT: [(Step, &[&str]); 18] = [
    (Step::Clear, &[]),
    (Step::Open, &["hello", "opened"]),
    (Step::Count, &[]),
    (Step::Count, &[]),
    (Step::Count, &["add branch"]),
    (Step::Bind, &["bind", "redirect"]),
    (Step::Tick, &["hello"]),
    (Step::Tick, &["hello"]),
    (Step::Tick, &["hello"]),
    (Step::Expect { next: 2 }, &[]),
    (Step::Tick, &["hello"]),
    (Step::Tick, &["hello", "reclaim"]),
    (Step::Tick, &["hello", "reclaim"]),
    (Step::Expect { next: 4 }, &[]),
    (Step::Tick, &["hello", "reclaim"]),
    (Step::Acknowledge, &[]),
    (Step::Expect { next: 5 }, &["cut chain", "delete tree"]),
    (Step::Free, &["free"]),
];

/// Label 32 isn't handed out where the peer can't send under it.
const NARROWED: [(Step, &[&str]); 7] = [
    (Step::Clear, &[]),
    (Step::Open, &["hello", "opened"]),
    (Step::Narrow, &[]),
    (Step::Count, &[]),
    (Step::Count, &[]),
    (Step::Count, &["add branch"]),
    (Step::Bind, &[]),
];

/// A word for an action.
fn name_of(action: &Action) -> &'static str {
    match action {
        Action::Say(Message::Adjacency(_)) => "hello",
        Action::Say(Message::Redirect { .. }) => "redirect",
        Action::Say(Message::Reclaim { .. }) => "reclaim",
        Action::Say(Message::ReclaimAck { .. }) => "reclaim ack",
        Action::Say(_) => "message",
        Action::Ask {
            request: Request::AddBranch { .. },
            needed: _,
        } => "add branch",
        Action::Ask {
            request: Request::DeleteTree { .. },
            needed: _,
        } => "delete tree",
        Action::Ask { .. } => "request",
        Action::Note(Record::Opened { .. }) => "opened",
        Action::Note(Record::Bind { .. }) => "bind",
        Action::Note(Record::Free { .. }) => "free",
        Action::Note(_) => "record",
        Action::TakeBack { .. } => "take back",
        Action::CutChain { .. } => "cut chain",
        Action::Withdraw { .. } => "withdraw",
        Action::Reset => "reset",
    }
}

/// A port under instance 7, with labels 32 to 40.
fn opened(alloc: Global) -> Result<Link<XyPolicy>, OutOfMemory> {
    let timers = Timers {
        lifetime: 20,
        refresh: 5,
        window: 8,
    };
    Link::open(
        alloc,
        NodeId(1),
        PortNo(2),
        OWN,
        32,
        40,
        timers,
        XyPolicy { x: 3, idle: 4 },
        Instance(7),
    )
}

/// A message of the peer comes.
fn hear(
    alloc: Global,
    link: &mut Link<XyPolicy>,
    message: &Message,
    out: &mut Actions,
) -> Result<(), OutOfMemory>
    requires { InRange message.now }
{
    let desk = Desk::open(alloc)?;
    let heard = link.on_message(PEER, message, &desk, out);
    desk.abandon();
    heard
}

/// A packet of the flow comes on the default channel.
fn count(
    rt: &impl Abort,
    alloc: Global,
    link: &mut Link<XyPolicy>,
    out: &mut Actions,
) -> Result<(), OutOfMemory> {
    let checked = check(&PACKET);
    assert!(rt; checked.is_ok(), "it is a packet");
    let desk = Desk::open(alloc)?;
    let counted = link.on_packet(&PACKET, &desk, out);
    desk.abandon();
    counted
}

/// A tick goes by.
fn tick(alloc: Global, link: &mut Link<XyPolicy>, out: &mut Actions) -> Result<(), OutOfMemory> {
    let desk = Desk::open(alloc)?;
    let ticked = link.on_tick(&desk, out);
    desk.abandon();
    ticked
}

/// A branch is made.
fn start(
    rt: &impl Abort,
    alloc: Global,
    link: &mut Link<XyPolicy>,
    input: End,
    output: End,
    out: &mut Actions,
) -> Result<(), OutOfMemory> {
    let (done, ticket) = carried_out(rt, alloc, Request::AddBranch { input, output });
    let started = link.on_done(&done, out);
    redeem(done, ticket);
    started
}

/// The branch of the label that is handed out is deleted.
fn free(
    rt: &impl Abort,
    alloc: Global,
    link: &mut Link<XyPolicy>,
    out: &mut Actions,
) -> Result<(), OutOfMemory> {
    let (done, ticket) = carried_out(rt, alloc, Request::DeleteTree { input: LABEL });
    let freed = link.on_done(&done, out);
    redeem(done, ticket);
    freed
}

/// The grant is lent to the input.
fn lend(rt: &impl Abort, link: &mut Link<XyPolicy>) {
    let Some(grant) = link.grants().get(32) else {
        panic!(rt; "label 32 is granted")
    };
    match grant.state {
        GrantState::ByController => link.lend(32, INPUT),
        _other => panic!(rt; "the controller sends under it"),
    }
}

/// Whether a request leads the input to the controller.
fn leads_home(request: Request) -> bool
    ensures { IsTrue result → releases request INPUT ≡ true }
{
    match request {
        Request::MoveBranch {
            input: End {
                port: PortNo(1),
                channel: Channel { vpi: 0, vci: 40 },
            },
            from: _,
            to: End {
                port: PortNo(0),
                channel: Channel { vpi: 16, vci: 40 },
            },
        } => true,
        _ => false,
    }
}

/// Whether the grant is lent to the input.
fn is_lent(link: &Link<XyPolicy>) -> bool
    ensures { IsTrue result → (grant : Grant) × (at grant_label 32 link.now.port.grants ≡ Some grant) × (lent_input grant.state ≡ Some INPUT) }
{
    let Some(grant) = link.grants().get(32) else {
        return false;
    };
    match grant.input {
        Some(
            End {
                port: PortNo(1),
                channel: Channel { vpi: 0, vci: 40 },
            },
        ) => true,
        _ => false,
    }
}

/// Whether the grant is lent to the input, and what is done leads the input to the controller.
fn is_released(link: &Link<XyPolicy>, done: &BranchDone) -> bool
    ensures { IsTrue result → (grant : Grant) × (at grant_label 32 link.now.port.grants ≡ Some grant) × IsTrue (is_released_by done.now.request grant.state) }
{
    if !is_lent(link) {
        return false;
    }
    leads_home(done.request())
}

/// The input is led to the controller.
fn release(
    rt: &impl Abort,
    alloc: Global,
    link: &mut Link<XyPolicy>,
    out: &mut Actions,
) -> Result<(), OutOfMemory> {
    let moved = Request::MoveBranch {
        input: INPUT,
        from: LABEL,
        to: INPUT_HOME,
    };
    let (done, ticket) = carried_out(rt, alloc, moved);
    if !is_released(link, &done) {
        panic!(rt; "label 32 isn't lent to the input")
    }
    let released = link.back(32, &done, out);
    redeem(done, ticket);
    released
}

/// The side of the peer, of instance 9, knows the port's, and expects this number.
fn greet(
    alloc: Global,
    link: &mut Link<XyPolicy>,
    kind: HelloKind,
    next: u32,
    out: &mut Actions,
) -> Result<(), OutOfMemory> {
    let hello = Hello {
        kind,
        sender: Instance(9),
        peer: Instance(7),
        identity: OWN,
        next,
    };
    hear(alloc, link, &Message::Adjacency(hello), out)
}

/// The peer grants label 32.
fn redirect(
    rt: &impl Abort,
    alloc: Global,
    link: &mut Link<XyPolicy>,
    number: u32,
    lifetime: u16,
    out: &mut Actions,
) -> Result<(), OutOfMemory> {
    assert!(rt; lifetime > 0);
    let redirect = Message::Redirect {
        sender: Instance(9),
        peer: Instance(7),
        number,
        lifetime,
        label: LABEL.channel,
        flow: HOSTS,
    };
    hear(alloc, link, &redirect, out)
}

/// The peer reclaims it.
fn reclaim(
    alloc: Global,
    link: &mut Link<XyPolicy>,
    number: u32,
    out: &mut Actions,
) -> Result<(), OutOfMemory> {
    let reclaim = Message::Reclaim {
        sender: Instance(9),
        peer: Instance(7),
        number,
        label: LABEL.channel,
        flow: HOSTS,
    };
    hear(alloc, link, &reclaim, out)
}

/// The peer acknowledges that label 32 was reclaimed.
fn acknowledge(
    alloc: Global,
    link: &mut Link<XyPolicy>,
    out: &mut Actions,
) -> Result<(), OutOfMemory> {
    let acknowledgement = Message::ReclaimAck {
        sender: Instance(9),
        peer: Instance(7),
        number: 1,
        label: LABEL.channel,
        flow: HOSTS,
    };
    hear(alloc, link, &acknowledgement, out)
}

/// The peer tells the labels under which it can send.
fn narrow(alloc: Global, link: &mut Link<XyPolicy>, out: &mut Actions) -> Result<(), OutOfMemory> {
    let range = Message::LabelRange {
        sender: Instance(9),
        peer: Instance(7),
        number: 1,
        least: Channel { vpi: 0, vci: 33 },
        greatest: Channel { vpi: 0, vci: 40 },
    };
    hear(alloc, link, &range, out)
}

/// A step is taken.
fn take_step(
    rt: &impl Abort,
    alloc: Global,
    link: &mut Link<XyPolicy>,
    step: Step,
    out: &mut Actions,
) -> Result<(), OutOfMemory> {
    match step {
        Step::Clear => {
            assert!(rt; link.is_clearing());
            link.cleared();
            Ok(())
        }
        Step::Open => greet(alloc, link, HelloKind::Synack, 1, out),
        Step::Redirect { number, lifetime } => redirect(rt, alloc, link, number, lifetime, out),
        Step::Start => start(rt, alloc, link, HOME, LABEL, out),
        Step::Count => count(rt, alloc, link, out),
        Step::Bind => start(rt, alloc, link, LABEL, HOME, out),
        Step::Expect { next } => greet(alloc, link, HelloKind::Ack, next, out),
        Step::Acknowledge => acknowledge(alloc, link, out),
        Step::Free => free(rt, alloc, link, out),
        Step::Narrow => narrow(alloc, link, out),
        Step::Reset => link.reset(Instance(8), out),
        Step::Restart => link.restart(Instance(9), out),
        Step::Lend => {
            lend(rt, link);
            Ok(())
        }
        Step::Reclaim { number } => reclaim(alloc, link, number, out),
        Step::Release => release(rt, alloc, link, out),
        Step::Tick => tick(alloc, link, out),
    }
}

/// A port takes steps, and asks this at each.
fn live(
    rt: &impl Abort,
    alloc: Global,
    link: &mut Link<XyPolicy>,
    life: &[(Step, &[&str])],
) -> Result<(), OutOfMemory> {
    for (step, asked) in life {
        let mut out = Actions::open(alloc)?;
        take_step(rt, alloc, link, *step, &mut out)?;
        for name in *asked {
            match out.take_first() {
                Some(action) => assert_eq!(rt; name_of(&action), *name, "at {step:?}"),
                None => panic!(rt; "{name} isn't asked at {step:?}"),
            }
        }
        assert!(rt; out.is_empty(), "more is asked at {step:?}");
    }
    Ok(())
}

#[test]
fn a_port_lives(rt: HostRuntime) -> Result<(), Fail> {
    for life in [
        &RECLAIMED as &[(Step, &[&str])],
        &EXPIRED,
        &ENDED,
        &RESET,
        &QUIT,
        &NARROWED,
    ] {
        let mut link = opened(rt.alloc())?;
        let lived = live(&rt, rt.alloc(), &mut link, life);
        link.abandon();
        lived?;
    }
    Ok(())
}
