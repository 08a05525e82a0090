//! The ports of a switch, by their numbers.

ghost use Rattle.std.specs.Prelude.{◌≡◌, ◌∷◌, ◌<◌, ◌+◌, ◌^◌, map, IfOk, IfSome};
ghost use Rattle.world_model.specs.Switch.{begun, control_port, has_port, has_session, is_up, state_of_port, with_port};
ghost use Rattle.world_model.specs.Requests.{managed, ports_after};
ghost use Rattle.gsmp_switch.specs.State.{CanRaise};

use gsmp_wire::BRING_UP;
use net_types::{CONTROL_PORT, Instance, OutOfMemory, PortNo};
use std::alloc::Global;
use world_model::{PortState, Request};

/// What is known of a port, if the switch has it.
pub(crate) fn port_of(ports: &[PortState], port: PortNo) -> Option<PortState>
    ensures { result ≡ state_of_port ports.now port }
{
    ports.iter().copied().find(|state| state.number.0 == port.0)
}

/// Whether the switch has the port.
pub(crate) fn has_port(ports: &[PortState], port: PortNo) -> bool
    ensures { result ≡ has_port ports.now port }
{
    port_of(ports, port).is_some()
}

/// Whether the switch has the port, and it is up.
pub(crate) fn is_up(ports: &[PortState], port: PortNo) -> bool
    ensures { result ≡ is_up ports.now port }
{
    match port_of(ports, port) {
        Some(state) => state.is_up,
        None => false,
    }
}

/// Whether the switch has the port, and this is its session.
pub(crate) fn has_session(ports: &[PortState], port: PortNo, session: u32) -> bool
    ensures { result ≡ has_session ports.now port session }
{
    match port_of(ports, port) {
        Some(state) => state.session == session,
        None => false,
    }
}

/// A port that is brought up or taken down. Its next session begins.
fn managed(function: u8, state: PortState) -> PortState
    requires { state.session + 1 < 2 ^ 32 }
    ensures { result ≡ managed function state }
{
    PortState {
        number: state.number,
        is_up: function == BRING_UP,
        session: state.session + 1,
    }
}

/// A port that begins anew.
fn begun(own: Instance, number: PortNo) -> PortState
    ensures { result ≡ begun own number }
{
    PortState {
        number,
        is_up: true,
        session: own.0,
    }
}

/// Brings a port up or takes it down.
fn manage(ports: &mut Vec<PortState>, port: PortNo, function: u8)
    requires { IfSome (state_of_port ports.old.items port) (λ state. state.session + 1 < 2 ^ 32) }
    ensures { ports.new.items ≡ with_port port (managed function) ports.old.items }
{
    for place in 0..ports.len() {
        let state = ports[place];
        if state.number.0 == port.0 {
            ports[place] = managed(function, state);
            return;
        }
    }
}

/// Does to the ports what a request asks that doesn't fail.
pub(crate) fn change_ports(ports: &mut Vec<PortState>, request: &Request)
    requires { CanRaise ports.old.items request.now }
    ensures { ports.new.items ≡ ports_after ports.old.items request.now }
{
    match *request {
        Request::PortManagement { port, function } => manage(ports, port, function),
        Request::AddBranch {
            input: _,
            output: _,
        } => {}
        Request::MoveBranch {
            input: _,
            from: _,
            to: _,
        } => {}
        Request::DeleteTree { input: _ } => {}
        Request::VerifyTree { input: _ } => {}
        Request::DeleteAll { port: _ } => {}
        Request::AllPorts => {}
    }
}

/// All ports begin anew.
pub(crate) fn begin(ports: &mut Vec<PortState>, own: Instance)
    ensures { ports.new.items ≡ map (λ state. begun own state.number) ports.old.items }
{
    for place in 0..ports.len() {
        let state = ports[place];
        ports[place] = begun(own, state.number);
    }
}

/// Port 0 and these ports, where all begin anew.
pub(crate) fn opened_ports(
    alloc: Global,
    ports: &[PortNo],
    own: Instance,
) -> Result<Vec<PortState>, OutOfMemory>
    ensures { IfOk result (λ states. states.items ≡ map (begun own) (control_port ∷ ports.now)) }
{
    let mut states = Vec::new(alloc);
    states.push(begun(own, CONTROL_PORT))?;
    for port in ports {
        states.push(begun(own, *port))?;
    }
    Ok(states)
}
