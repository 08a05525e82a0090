//! *Redirect* (RFC 1953). The refusals and the limits are this project's own.

ghost use Rattle.std.specs.Prelude.{◌≡◌, ◌++◌, ◌∷◌, ◌&&◌, [], ℕ, false, not, Some, IsTrue, IfOk, OnOk};
ghost use Rattle.ipv4_packet.specs.declared.flow.FlowId.{FlowId as FlowValue};
ghost use Rattle.net_types.specs.Label.{is_label_number};
ghost use Rattle.gsmp_wire.specs.declared.request.Request.TheVariants.{AddBranch};
ghost use Rattle.port_model.specs.declared.action.Action.TheVariants.{Ask};
ghost use Rattle.port_model.specs.Grants.{acceptance, acceptance_of};
ghost use Rattle.port_model.specs.Port.{has_room};
ghost use Rattle.port_model.specs.Setup.{control_end, label_end};
ghost use Rattle.port_model.specs.Redirection.{redirected};
ghost use Rattle.port_state.specs.Engine.{setup_of};
ghost use Rattle.port_state.specs.Parts.{is_new};
ghost use Rattle.port_saying.specs.Rules.{begun};
ghost use Rattle.port_saying.specs.Rules.{Ends};

use branch_desk::Desk;
use flow_classifier::Policy;
use grant_table::{AcceptFault, Accepted};
use gsmp_wire::Request;
use ipv4_packet::FlowId;
use net_types::{Channel, OutOfMemory, label_number};
use port_actions::Actions;
use port_model::Action;
use port_saying::{ErrorCode, Stop, has_room, say_error, say_range};
use port_state::PortState;

/// A REDIRECT is taken.
pub(crate) fn redirected<P: Policy>(
    state: &mut PortState<P>,
    channel: Channel,
    flow: FlowId,
    lifetime: u16,
    desk: &Desk,
    out: &mut Actions,
) -> Result<(), Stop>
    ensures fixed { state.new.fixed ≡ state.old.fixed }
    ensures work { (n : ℕ) → Ends result state.new.port out.new n (redirected (setup_of P.meaning state.old.fixed) desk.now (begun state.old.port out.old n) channel flow lifetime (acceptance (setup_of P.meaning state.old.fixed) state.old.port.grants channel flow)) }
{
    match label_number(channel) {
        Some(label) => redirect(state, channel, label, flow, lifetime, desk, out),
        None => say_range(state, out),
    }
}

/// A REDIRECT of a label is taken. Where at least 1,024 requests will stand a new grant isn't made, and
/// nothing is said.
fn redirect<P: Policy>(
    state: &mut PortState<P>,
    channel: Channel,
    label: u16,
    flow: FlowId,
    lifetime: u16,
    desk: &Desk,
    out: &mut Actions,
) -> Result<(), Stop>
    requires { IsTrue (is_label_number label) }
    ensures fixed { state.new.fixed ≡ state.old.fixed }
    ensures work { (n : ℕ) → Ends result state.new.port out.new n (redirected (setup_of P.meaning state.old.fixed) desk.now (begun state.old.port out.old n) channel flow lifetime (acceptance_of (setup_of P.meaning state.old.fixed) state.old.port.grants flow (Some label))) }
{
    if is_held_back(state, label, desk, out)? {
        return Ok(());
    }
    match state.accept(label, flow, lifetime) {
        Ok(Accepted::New) => {
            ask_grant(state, label, out)?;
            Ok(())
        }
        Ok(Accepted::Refreshed) => Ok(()),
        Err(AcceptFault::OutOfRange) => say_range(state, out),
        Err(AcceptFault::Taken) => say_error(state, ErrorCode::Taken, channel, out),
        Err(AcceptFault::Leaving) => say_error(state, ErrorCode::Leaving, channel, out),
        Err(AcceptFault::GrantsFull) => say_error(state, ErrorCode::Full, channel, out),
    }
}

/// Whether a new grant of a label would be made, but at least 1,024 requests will stand.
fn is_held_back<P: Policy>(
    state: &PortState<P>,
    label: u16,
    desk: &Desk,
    out: &Actions,
) -> Result<bool, OutOfMemory>
    requires { IsTrue (is_label_number label) }
    ensures { (n : ℕ) (flow : FlowValue) → IfOk result (λ held. held ≡ (is_new (acceptance_of (setup_of P.meaning state.now.fixed) state.now.port.grants flow (Some label)) && not (has_room desk.now (begun state.now.port out.now n)))) }
{
    if !state.is_new(label) {
        return Ok(false);
    }
    let room = has_room(state.alloc(), desk, out)?;
    Ok(!room)
}

/// The branch of a new grant from the controller is asked.
fn ask_grant<P: Policy>(
    state: &PortState<P>,
    label: u16,
    out: &mut Actions,
) -> Result<(), OutOfMemory>
    requires { IsTrue (is_label_number label) }
    ensures { OnOk result (out.new ≡ out.old ++ Ask (AddBranch (control_end state.now.fixed.port label) (label_end state.now.fixed.port label)) false ∷ []) }
{
    let request = Request::AddBranch {
        input: state.control_end(label),
        output: state.label_end(label),
    };
    out.push(Action::Ask {
        request,
        needed: false,
    })
}
