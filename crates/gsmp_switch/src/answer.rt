//! The answers to requests.

ghost use Rattle.std.specs.Prelude.{◌≡◌, ◌≤◌, true, length, map, is_some, Some};
ghost use Rattle.gsmp_wire.specs.declared.message.Message.TheVariants.{AllPorts, Port};
ghost use Rattle.gsmp_wire.specs.Layout.{connection_of};
ghost use Rattle.gsmp_wire.specs.Outcomes.{code_in, result_in};
ghost use Rattle.world_model.specs.Answers.{branch_of, count_of, failure_answer, port_row, answer_session, success_answer, told_output};
ghost use Rattle.world_model.specs.Requests.{end_at, is_request};
ghost use Rattle.gsmp_wire.specs.Range.{FitsRow, FitsRows, IsInRange};

use crate::exchange::Exchange;
use crate::ports::port_of;
use gsmp_wire::{BranchKind, Connection, Message, Outcome, PortRow, PortRows};
use net_types::{Channel, End, GREATEST_LABEL_VCI, LEAST_LABEL_VCI};
use world_model::{Failure, PortState, Request};

/// The connection that a message is about, which is about one.
fn connection_in(message: &Message) -> Connection
    requires { is_some (connection_of message.now) ≡ true }
    ensures { Some result ≡ connection_of message.now }
{
    match message.connection() {
        Some(connection) => connection,
        None => unreachable!(),
    }
}

/// The answer to a Port Management with these fields.
fn port_message(
    outcome: Outcome,
    transaction: u32,
    port: u32,
    session: u32,
    function: u8,
) -> Message
    ensures { result ≡ Port (result_in outcome) (code_in outcome) transaction port session function }
{
    Message::Port {
        result: outcome.result(),
        code: outcome.code(),
        transaction,
        port,
        session,
        function,
    }
}

/// The answer to an All Ports with these records.
fn ports_message(outcome: Outcome, transaction: u32, rows: PortRows) -> Message
    ensures { result ≡ AllPorts (result_in outcome) (code_in outcome) transaction rows }
{
    Message::AllPorts {
        result: outcome.result(),
        code: outcome.code(),
        transaction,
        rows,
    }
}

/// The failure answer to a request.
pub(crate) fn failure_answer(failure: Failure, request: &Message) -> Message
    ensures { result ≡ failure_answer failure request.now }
{
    let refused = Outcome::Failure(failure);
    match *request {
        Message::Adjacency(greeting) => Message::Adjacency(greeting),
        Message::Branch { kind, .. } => connection_in(request).branch(kind, refused),
        Message::Move {
            target_port,
            target,
            ..
        } => connection_in(request).moved(refused, target_port, target),
        Message::Port {
            transaction,
            port,
            session,
            function,
            ..
        } => port_message(refused, transaction, port, session, function),
        Message::AllPorts { transaction, .. } => {
            ports_message(refused, transaction, PortRows::new())
        }
    }
}

/// The record of a port, with the VCIs of labels.
fn row_of(state: PortState) -> PortRow
    ensures row { result ≡ port_row state }
    ensures fits { FitsRow result }
{
    PortRow {
        port: state.number.0 as u32,
        session: state.session,
        up: state.is_up,
        least: LEAST_LABEL_VCI,
        greatest: GREATEST_LABEL_VCI,
    }
}

/// The records of all ports.
fn rows_of(ports: &[PortState]) -> PortRows
    requires { length ports.now ≤ 9 }
    ensures rows { result ≡ map port_row ports.now }
    ensures fits { FitsRows result }
{
    let mut rows = PortRows::new();
    for state in ports {
        rows.push(row_of(*state));
    }
    rows
}

/// Where the branch of a request's input leads.
fn branch_of(exchange: &Exchange, request: &Request) -> Option<End>
    ensures { result ≡ branch_of exchange.now.crossbar.branches request.now }
{
    match *request {
        Request::AddBranch { input, output: _ } => exchange.branch(input),
        Request::MoveBranch {
            input,
            from: _,
            to: _,
        } => exchange.branch(input),
        Request::DeleteTree { input } => exchange.branch(input),
        Request::VerifyTree { input } => exchange.branch(input),
        _ => None,
    }
}

/// How many branches an input has.
fn count_of(found: &Option<End>) -> u16
    ensures { result ≡ count_of found.now }
{
    if found.is_some() { 1 } else { 0 }
}

/// The session of the port that is managed.
fn session_of(ports: &[PortState], request: &Request, session: u32) -> u32
    ensures { result ≡ answer_session ports.now request.now session }
{
    match *request {
        Request::PortManagement { port, function: _ } => match port_of(ports, port) {
            Some(state) => state.session,
            None => session,
        },
        _ => session,
    }
}

/// What an answer has in the place of the output: Verify Tree tells where the branch leads.
fn told_output(kind: BranchKind, port: u32, channel: Channel, found: Option<End>) -> (u32, Channel)
    ensures port { result.0 ≡ (told_output kind (end_at port channel) found).port.0 }
    ensures channel { result.1 ≡ (told_output kind (end_at port channel) found).channel }
{
    match (kind, found) {
        (BranchKind::Verify, Some(output)) => (output.port.0 as u32, output.channel),
        (_, _) => (port, channel),
    }
}

/// The success answer to a request, where these are the ports and the exchange afterwards.
pub(crate) fn success_answer(
    ports: &[PortState],
    exchange: &Exchange,
    request: &Request,
    message: &Message,
) -> Message
    requires ports { (1 ≤ length ports.now) × (length ports.now ≤ 9) }
    requires request { is_request message.now ≡ true }
    requires range { IsInRange message.now }
    ensures answer { result ≡ success_answer ports.now exchange.now.crossbar.branches request.now message.now }
    ensures range { IsInRange result }
{
    let found = branch_of(exchange, request);
    let branches = count_of(&found);
    match *message {
        Message::Adjacency(greeting) => Message::Adjacency(greeting),
        Message::Branch { kind, .. } => {
            let asked = connection_in(message);
            let (output_port, output) = told_output(kind, asked.output_port, asked.output, found);
            let told = Connection {
                output_port,
                output,
                branches,
                ..asked
            };
            told.branch(kind, Outcome::Success)
        }
        Message::Move {
            target_port,
            target,
            ..
        } => {
            let told = Connection {
                branches,
                ..connection_in(message)
            };
            told.moved(Outcome::Success, target_port, target)
        }
        Message::Port {
            transaction,
            port,
            session,
            function,
            ..
        } => {
            let session = session_of(ports, request, session);
            port_message(Outcome::Success, transaction, port, session, function)
        }
        Message::AllPorts { transaction, .. } => {
            ports_message(Outcome::Success, transaction, rows_of(ports))
        }
    }
}
