//! What a message asks, and whether the switch refuses it.

ghost use Rattle.std.specs.Prelude.{◌≡◌, Some, None, false, ◌&&◌, ◌==◌, ◌*◌, nat_le, nat_lt, IfSome, IfNone, if◌then◌else◌};
ghost use Rattle.std.specs.List.{list_all, list_any};
ghost use Rattle.world_model.specs.Requests.{asked_in, branch_request, end_at, is_request};
ghost use Rattle.crossbar_model.specs.Channels.{is_connectable};
ghost use Rattle.world_model.specs.Failures.{failure_of, is_busy, is_last_session, lacks_branch, leads_elsewhere, named_ends, named_ports, names_session, used_ports};
ghost use Rattle.world_model.specs.Switch.{has_port, is_up, numbers_of};
ghost use Rattle.gsmp_switch.specs.State.{AreStatesOf};

use crate::exchange::Exchange;
use crate::ports::{has_port, has_session, is_up};
use gsmp_wire::{BranchKind, Message, REQUEST};
use net_types::{Channel, End, PortNo};
use world_model::{Asked, Failure, PortState, Request};

/// The greatest session.
const LAST_SESSION: u32 = 4_294_967_295;

/// Whether a message is a request, by its Result.
pub(crate) fn is_request(message: &Message) -> bool
    ensures { result ≡ is_request message.now }
{
    match message {
        Message::Adjacency(_) => false,
        Message::Branch { result, .. }
        | Message::Move { result, .. }
        | Message::Port { result, .. }
        | Message::AllPorts { result, .. } => *result == REQUEST,
    }
}

/// An end as a message names it. None where no switch has a port of that number.
fn end_at(port: u32, channel: Channel) -> Option<End>
    ensures { result ≡ (if nat_le port 255 then Some (end_at port channel) else None) }
{
    if port > 255 {
        return None;
    }
    Some(End {
        port: PortNo(port as u8),
        channel,
    })
}

/// A port as a message names it. None where no switch has a port of that number.
fn port_at(port: u32) -> Option<PortNo>
    ensures { result ≡ (if nat_le port 255 then Some (record { 0 = port }) else None) }
{
    if port > 255 {
        return None;
    }
    Some(PortNo(port as u8))
}

/// What a message about a branch, or all branches, of an input asks. None where it names a port that no
/// switch has.
fn branch_request(
    kind: BranchKind,
    input_port: u32,
    input: Channel,
    output_port: u32,
    output: Channel,
) -> Option<Request>
    ensures some { IfSome result (λ request. request ≡ branch_request kind (end_at input_port input) (end_at output_port output)) }
    ensures none { IfNone result (list_all (λ port. nat_le port.0 255) (named_ports (branch_request kind (end_at input_port input) (end_at output_port output))) ≡ false) }
{
    let request = match kind {
        BranchKind::Add => Request::AddBranch {
            input: end_at(input_port, input)?,
            output: end_at(output_port, output)?,
        },
        BranchKind::Delete => Request::DeleteTree {
            input: end_at(input_port, input)?,
        },
        BranchKind::Verify => Request::VerifyTree {
            input: end_at(input_port, input)?,
        },
        BranchKind::DeleteAll => Request::DeleteAll {
            port: port_at(input_port)?,
        },
    };
    Some(request)
}

/// What a message asks. None where it is an adjacency message, or names a port that no switch has.
pub(crate) fn asked_in(message: &Message) -> Option<Asked>
    ensures some { IfSome result (λ asked. asked_in message.now ≡ Some asked) }
    ensures none { IfNone result (IfSome (asked_in message.now) (λ asked. list_all (λ port. nat_le port.0 255) (named_ports asked.request) ≡ false)) }
{
    let (session, request) = match message {
        Message::Adjacency(_) => return None,
        Message::Branch {
            kind,
            session,
            input_port,
            input,
            output_port,
            output,
            ..
        } => {
            let request = branch_request(*kind, *input_port, *input, *output_port, *output)?;
            (*session, request)
        }
        Message::Move {
            session,
            input_port,
            input,
            output_port,
            output,
            target_port,
            target,
            ..
        } => {
            let request = Request::MoveBranch {
                input: end_at(*input_port, *input)?,
                from: end_at(*output_port, *output)?,
                to: end_at(*target_port, *target)?,
            };
            (*session, request)
        }
        Message::Port {
            port,
            session,
            function,
            ..
        } => {
            let request = Request::PortManagement {
                port: port_at(*port)?,
                function: *function,
            };
            (*session, request)
        }
        Message::AllPorts { .. } => (0, Request::AllPorts),
    };
    Some(Asked { session, request })
}

/// Whether the switch has all ports that the request names.
fn has_ports(ports: &[PortState], request: &Request) -> bool
    ensures { result ≡ list_all (has_port ports.now) (named_ports request.now) }
{
    match *request {
        Request::AddBranch { input, output } => {
            has_port(ports, input.port) && has_port(ports, output.port)
        }
        Request::MoveBranch { input, from, to } => {
            has_port(ports, input.port) && has_port(ports, from.port) && has_port(ports, to.port)
        }
        Request::DeleteTree { input } | Request::VerifyTree { input } => {
            has_port(ports, input.port)
        }
        Request::DeleteAll { port } | Request::PortManagement { port, .. } => has_port(ports, port),
        Request::AllPorts => true,
    }
}

/// Whether the session is that of the port that the request is about.
fn names_session(ports: &[PortState], session: u32, request: &Request) -> bool
    ensures { result ≡ names_session ports.now session (named_ports request.now) }
{
    match *request {
        Request::AddBranch { input, .. }
        | Request::MoveBranch { input, .. }
        | Request::DeleteTree { input }
        | Request::VerifyTree { input } => has_session(ports, input.port, session),
        Request::DeleteAll { port } | Request::PortManagement { port, .. } => {
            has_session(ports, port, session)
        }
        Request::AllPorts => true,
    }
}

/// Whether all ports are up that the request needs.
fn are_up(ports: &[PortState], request: &Request) -> bool
    ensures { result ≡ list_all (is_up ports.now) (used_ports request.now) }
{
    match *request {
        Request::AddBranch { input, output } => {
            is_up(ports, input.port) && is_up(ports, output.port)
        }
        Request::MoveBranch { input, from, to } => {
            is_up(ports, input.port) && is_up(ports, from.port) && is_up(ports, to.port)
        }
        Request::DeleteTree { input } | Request::VerifyTree { input } => is_up(ports, input.port),
        Request::DeleteAll { port } => is_up(ports, port),
        Request::PortManagement { .. } | Request::AllPorts => true,
    }
}

/// Whether the switch can connect this channel.
fn is_connectable(ports: &[PortState], exchange: &Exchange, end: End) -> bool
    requires { AreStatesOf ports.now exchange.now.ports }
    ensures { result ≡ is_connectable (numbers_of ports.now) exchange.now.vpis end }
{
    exchange.is_connectable(end)
}

/// Whether the switch can connect all channels that the request names.
fn are_connectable(ports: &[PortState], exchange: &Exchange, request: &Request) -> bool
    requires { AreStatesOf ports.now exchange.now.ports }
    ensures { result ≡ list_all (is_connectable (numbers_of ports.now) exchange.now.vpis) (named_ends request.now) }
{
    match *request {
        Request::AddBranch { input, output } => {
            is_connectable(ports, exchange, input) && is_connectable(ports, exchange, output)
        }
        Request::MoveBranch { input, from, to } => {
            is_connectable(ports, exchange, input)
                && is_connectable(ports, exchange, from)
                && is_connectable(ports, exchange, to)
        }
        Request::DeleteTree { input } | Request::VerifyTree { input } => {
            is_connectable(ports, exchange, input)
        }
        Request::DeleteAll { .. } | Request::PortManagement { .. } | Request::AllPorts => true,
    }
}

/// Whether the input of an Add Branch has a branch to another output.
fn is_busy(exchange: &Exchange, request: &Request) -> bool
    ensures { result ≡ is_busy exchange.now.crossbar.branches request.now }
{
    match *request {
        Request::AddBranch { input, output } => match exchange.branch(input) {
            Some(other) => other != output,
            None => false,
        },
        _ => false,
    }
}

/// Whether the branch isn't there that the request speaks of.
fn lacks_branch(exchange: &Exchange, request: &Request) -> bool
    ensures { result ≡ lacks_branch exchange.now.crossbar.branches request.now }
{
    match *request {
        Request::VerifyTree { input } => exchange.branch(input).is_none(),
        Request::MoveBranch { input, from, to } => match exchange.branch(input) {
            Some(output) => !(output == from || output == to),
            None => true,
        },
        _ => false,
    }
}

/// Whether a Port Management names the last session.
fn is_last_session(session: u32, request: &Request) -> bool
    ensures { result ≡ is_last_session session request.now }
{
    match *request {
        Request::PortManagement { .. } => session == LAST_SESSION,
        _ => false,
    }
}

/// Why the switch refuses a request, if it does: the first failure that applies.
pub(crate) fn failure_of(ports: &[PortState], exchange: &Exchange, asked: &Asked) -> Option<Failure>
    requires { AreStatesOf ports.now exchange.now.ports }
    ensures { result ≡ failure_of ports.now exchange.now.vpis exchange.now.crossbar.branches asked.now }
{
    let request = &asked.request;
    if !has_ports(ports, request) {
        return Some(Failure::NoPort);
    }
    if !names_session(ports, asked.session, request) {
        return Some(Failure::BadSession);
    }
    if !are_up(ports, request) {
        return Some(Failure::PortDown);
    }
    if !are_connectable(ports, exchange, request) {
        return Some(Failure::OutOfRange);
    }
    if is_busy(exchange, request) {
        return Some(Failure::Busy);
    }
    if lacks_branch(exchange, request) {
        return Some(Failure::NoConnection);
    }
    if is_last_session(asked.session, request) {
        return Some(Failure::SessionsSpent);
    }
    None
}
