//! Tables of one grant, and of one route.

ghost use Rattle.std.specs.Prelude.{◌≡◌, IfOk, IsTrue, Some};
ghost use Rattle.net_types.specs.Label.{is_label_number};
ghost use Rattle.branch_desk.specs.port_model.Grants.{Idle};
ghost use Rattle.grant_table.specs.Table.{state_of};

use branch_desk::{Answered, Desk, redeem};
use grant_table::{Accepted, GrantTable};
use gsmp_wire::{BranchKind, Message, Request};
use ipv4_forward::{Next, Table};
use ipv4_packet::FlowId;
use net_types::{
    Addr, CONTROL_PORT, End, OutOfMemory, PortNo, Prefix, label_channel, label_number, on_control,
};
use std::alloc::Global;
use std::process::Abort;

/// The port of the grants.
pub const PORT: PortNo = PortNo(2);

/// The switch makes the first branch that is asked of it.
fn made(input: End, output: End) -> Message {
    Message::Branch {
        kind: BranchKind::Add,
        result: 3,
        code: 0,
        transaction: 1,
        session: 0,
        input_port: input.port.0 as u32,
        input: input.channel,
        output_port: output.port.0 as u32,
        output: output.channel,
        branches: 1,
        priority: 0,
    }
}

/// A label of the port is granted to a flow, and its branch from the controller isn't made yet.
#[tactic(auto, using(crate::proofs::Granted::granted))]
pub fn idle(
    rt: &impl Abort,
    alloc: Global,
    label: u16,
    flow: FlowId,
) -> Result<GrantTable, OutOfMemory>
    requires { IsTrue (is_label_number label) }
    ensures { IfOk result (λ grants. state_of grants label ≡ Some Idle) }
{
    let mut grants = GrantTable::open(alloc, label, label)?;
    assert_eq!(rt; grants.accept(label, flow, 60), Ok(Accepted::New));
    Ok(grants)
}

/// A label of the port is granted to a flow, and its branch from the controller is made.
pub fn by_controller(
    rt: &impl Abort,
    alloc: Global,
    label: u16,
    flow: FlowId,
) -> Result<GrantTable, OutOfMemory>
    requires { IsTrue (is_label_number label) }
{
    let mut desk = Desk::open(alloc)?;
    let mut grants = match idle(rt, alloc, label, flow) {
        Ok(grants) => grants,
        Err(error) => {
            desk.abandon();
            return Err(error);
        }
    };
    let channel = label_channel(label);
    let input = End {
        port: CONTROL_PORT,
        channel: on_control(PORT, channel),
    };
    let output = End {
        port: PORT,
        channel,
    };
    let ticket = desk.ask_needed(Request::AddBranch { input, output });
    let answered = desk.answer(&made(input, output));
    let Answered::Done(done) = answered else {
        panic!(rt; "the branch is made")
    };
    assert_eq!(rt; done.request(), Request::AddBranch { input, output });
    assert_eq!(rt; label_number(channel), Some(label));
    grants.started(label, &done);
    redeem(done, ticket);
    desk.abandon();
    Ok(grants)
}

/// What goes to 10.0.3.0/24 goes there.
pub fn routed(rt: &impl Abort, alloc: Global, next: Next) -> Result<Table, OutOfMemory> {
    let Ok(prefix) = Prefix::new(Addr(0x0a00_0300), 24) else {
        panic!(rt; "it is a prefix")
    };
    let mut routes = Table::open(alloc)?;
    assert!(rt; routes.add(prefix, next).is_ok(), "the table has room");
    Ok(routes)
}
