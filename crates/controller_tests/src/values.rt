//! Values that several tests are of: a flow, channels, and requests that a switch has done.

ghost use Rattle.std.specs.Prelude.{◌≡◌, true};
ghost use Rattle.branch_desk.specs.Requests.{has_function};

use branch_desk::{Answered, BranchDone, Desk, Ticket};
use gsmp_wire::{BranchKind, Message, PortRows, Request};
use ipv4_packet::FlowId;
use net_types::{Addr, Channel, End, PortNo};
use std::alloc::Global;
use std::process::Abort;

/// The flow from 10.0.1.1 to 10.0.3.1 with Time To Live 4.
pub const HOSTS: FlowId = FlowId::Two {
    ttl: 4,
    source: Addr(0x0a00_0101),
    destination: Addr(0x0a00_0301),
};

/// Label 32 of port 2, and the channel of the control port that stands for it.
pub const LABEL: End = End {
    port: PortNo(2),
    channel: Channel { vpi: 0, vci: 32 },
};

pub const HOME: End = End {
    port: PortNo(0),
    channel: Channel { vpi: 32, vci: 32 },
};

/// Label 40 of port 1, and the channel of the control port that stands for it.
pub const INPUT: End = End {
    port: PortNo(1),
    channel: Channel { vpi: 0, vci: 40 },
};

pub const INPUT_HOME: End = End {
    port: PortNo(0),
    channel: Channel { vpi: 16, vci: 40 },
};

/// A success of the switch, of the first request that is asked of it, on a branch.
fn of_branch(kind: BranchKind, input: End, output: End) -> Message {
    Message::Branch {
        kind,
        result: 3,
        code: 0,
        transaction: 1,
        session: 0,
        input_port: input.port.0 as u32,
        input: input.channel,
        output_port: output.port.0 as u32,
        output: output.channel,
        branches: 1,
        priority: 0,
    }
}

/// The same of this request. No test asks one of another kind.
fn success(request: Request) -> Message {
    match request {
        Request::AddBranch { input, output } => of_branch(BranchKind::Add, input, output),
        Request::DeleteTree { input } => of_branch(BranchKind::Delete, input, HOME),
        Request::MoveBranch { input, from, to } => Message::Move {
            result: 3,
            code: 0,
            transaction: 1,
            session: 0,
            input_port: input.port.0 as u32,
            input: input.channel,
            output_port: from.port.0 as u32,
            output: from.channel,
            target_port: to.port.0 as u32,
            target: to.channel,
            branches: 1,
            priority: 0,
        },
        _ => Message::AllPorts {
            result: 3,
            code: 0,
            transaction: 1,
            rows: PortRows::new(),
        },
    }
}

/// The switch does a request. What is done is to be redeemed with its ticket.
pub fn carried_out(rt: &impl Abort, alloc: Global, request: Request) -> (BranchDone, Ticket)
    requires { has_function request ≡ true }
    ensures request { result.0.request ≡ request }
    ensures number { result.0.number ≡ result.1.number }
{
    let Ok(mut desk) = Desk::open(alloc) else {
        panic!(rt; "there is memory")
    };
    let ticket = desk.ask_needed(request);
    let answered = desk.answer(&success(request));
    let Answered::Done(done) = answered else {
        panic!(rt; "the request is done")
    };
    assert_eq!(rt; done.request(), request);
    assert!(rt; done.number() == ticket.number());
    desk.abandon();
    (done, ticket)
}
