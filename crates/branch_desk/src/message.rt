//! Messages of GSMP, as a desk writes and hears them.

ghost use Rattle.std.specs.Prelude.{◌≡◌};
ghost use Rattle.gsmp_wire.specs.Layout.{connection};
ghost use Rattle.port_model.specs.DeskAnswers.{is_branch_of, is_of_type};
ghost use Rattle.port_model.specs.Messages.{all_of, branch_message, is_up, message_of, row_of, session_of};

use gsmp_wire::{BranchKind, Connection, Message, Outcome, PortRow, PortRows, Request};
use net_types::{CONTROL_PORT, Channel, End, PortNo};

/// Whether a message about branches of this kind and a request have one type.
fn is_branch_of(kind: BranchKind, request: &Request) -> bool
    ensures { result ≡ is_branch_of kind request.now }
{
    match (kind, request) {
        (BranchKind::Add, Request::AddBranch { .. })
        | (BranchKind::Delete, Request::DeleteTree { .. })
        | (BranchKind::Verify, Request::VerifyTree { .. })
        | (BranchKind::DeleteAll, Request::DeleteAll { .. }) => true,
        _ => false,
    }
}

/// Whether a message and a request have one type.
pub(crate) fn is_of_type(message: &Message, request: &Request) -> bool
    ensures { result ≡ is_of_type message.now request.now }
{
    match (message, request) {
        (Message::Branch { kind, .. }, _) => is_branch_of(*kind, request),
        (Message::Move { .. }, Request::MoveBranch { .. })
        | (Message::Port { .. }, Request::PortManagement { .. })
        | (Message::AllPorts { .. }, Request::AllPorts) => true,
        _ => false,
    }
}

/// The record of a port: the first one.
fn row_of(rows: &PortRows, port: PortNo) -> Option<PortRow>
    ensures { result ≡ row_of rows.now port }
{
    rows.as_slice()
        .iter()
        .copied()
        .find(|row| row.port == port.0 as u32)
}

/// The session of a port; 0 where no record tells it.
fn session_of(rows: &PortRows, port: PortNo) -> u32
    ensures { result ≡ session_of rows.now port }
{
    match row_of(rows, port) {
        Some(row) => row.session,
        None => 0,
    }
}

/// Whether a port is up; not where no record tells it.
pub(crate) fn is_up(rows: &PortRows, port: PortNo) -> bool
    ensures { result ≡ is_up rows.now port }
{
    match row_of(rows, port) {
        Some(row) => row.up,
        None => false,
    }
}

/// How a request writes an input that is a whole port, and an end of which it doesn't speak.
pub(crate) fn all_of(port: PortNo) -> End
    ensures { result ≡ all_of port }
{
    End {
        port,
        channel: Channel { vpi: 0, vci: 0 },
    }
}

/// The connection of a request from this input to this output.
fn connection_between(number: u32, session: u32, input: End, output: End) -> Connection
    ensures { result ≡ connection number session input.port.0 input.channel output.port.0 output.channel 0 0 }
{
    Connection {
        transaction: number,
        session,
        input_port: input.port.0 as u32,
        input: input.channel,
        output_port: output.port.0 as u32,
        output: output.channel,
        branches: 0,
        priority: 0,
    }
}

/// A request about a branch, or all branches, of an input.
fn branch_message(kind: BranchKind, number: u32, session: u32, input: End, output: End) -> Message
    ensures { result ≡ branch_message kind number session input output }
{
    connection_between(number, session, input, output).branch(kind, Outcome::Request)
}

/// The message of a request, with the session that the records tell.
pub(crate) fn message_of(rows: &PortRows, number: u32, request: &Request) -> Message
    ensures { result ≡ message_of rows.now number request.now }
{
    let unnamed = all_of(CONTROL_PORT);
    match *request {
        Request::AddBranch { input, output } => {
            let session = session_of(rows, input.port);
            branch_message(BranchKind::Add, number, session, input, output)
        }
        Request::MoveBranch { input, from, to } => {
            let session = session_of(rows, input.port);
            let connection = connection_between(number, session, input, from);
            connection.moved(Outcome::Request, to.port.0 as u32, to.channel)
        }
        Request::DeleteTree { input } => {
            let session = session_of(rows, input.port);
            branch_message(BranchKind::Delete, number, session, input, unnamed)
        }
        Request::VerifyTree { input } => {
            let session = session_of(rows, input.port);
            branch_message(BranchKind::Verify, number, session, input, unnamed)
        }
        Request::DeleteAll { port } => {
            let session = session_of(rows, port);
            let input = all_of(port);
            branch_message(BranchKind::DeleteAll, number, session, input, unnamed)
        }
        Request::PortManagement { port, function } => Message::Port {
            result: Outcome::Request.result(),
            code: Outcome::Request.code(),
            transaction: number,
            port: port.0 as u32,
            session: session_of(rows, port),
            function,
        },
        Request::AllPorts => Message::AllPorts {
            result: Outcome::Request.result(),
            code: Outcome::Request.code(),
            transaction: number,
            rows: PortRows::new(),
        },
    }
}
