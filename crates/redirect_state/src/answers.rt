//! What a success of the switch means to the port: a label is bound, joined or free, or a grant can be used.

ghost use Rattle.std.specs.Prelude.{◌≡◌, ◌==◌, ℕ, List, true, false, Some, IsTrue, OnOk};
ghost use Rattle.net_types.specs.declared.channel.End.{End as EndValue};
ghost use Rattle.net_types.specs.Label.{is_label_channel, is_label_number, label_number_of};
ghost use Rattle.port_labels.specs.Read.{label_of};
ghost use Rattle.label_pool.specs.Label.{wires};
ghost use Rattle.gsmp_wire.specs.declared.request.Request.TheVariants.{AddBranch, DeleteTree};
ghost use Rattle.port_model.specs.declared.action.Action.{Action as ActionValue};
ghost use Rattle.port_model.specs.Grants.{grant_on};
ghost use Rattle.port_model.specs.Hearing.{label_by};
ghost use Rattle.port_model.specs.Answers.{bound, bound_in, done as answer_done, freed, joined_to, started};
ghost use Rattle.port_model.specs.Labels as labels;
ghost use Rattle.port_model.specs.Port.{label_at};
ghost use Rattle.port_state.specs.Engine.{setup_of};
ghost use Rattle.port_saying.specs.Rules.{begun};
ghost use Rattle.redirect_state.specs.Calls.{CanBeDone};
ghost use Rattle.port_saying.specs.Rules.{Ends};

use branch_desk::BranchDone;
use flow_classifier::Policy;
use grant_table::GrantState;
use gsmp_wire::Request;
use link_model::Record;
use net_types::{CONTROL_PORT, Channel, End, OutOfMemory, PortNo, label_number};
use port_actions::Actions;
use port_hearing::label_by;
use port_labels::{HeldLabel, HeldState};
use port_model::Action;
use port_saying::{Stop, say_redirect};
use port_state::PortState;

/// Does what a success of the switch causes.
pub(crate) fn carry_on<P: Policy>(
    state: &mut PortState<P>,
    done: &BranchDone,
    out: &mut Actions,
) -> Result<(), Stop>
    requires { CanBeDone done.now.request }
    ensures fixed { state.new.fixed ≡ state.old.fixed }
    ensures work { (n : ℕ) → Ends result state.new.port out.new n (answer_done (setup_of P.meaning state.old.fixed) (begun state.old.port out.old n) done.now.request) }
{
    match done.request() {
        Request::AddBranch { input, output } => {
            if input.port == CONTROL_PORT {
                start_grant(state, output.channel, done);
                Ok(())
            } else {
                bind(state, input.channel, done, out)
            }
        }
        Request::MoveBranch { input, to, .. } => {
            note_join(state, input, to, out)?;
            Ok(())
        }
        Request::DeleteTree { input } => {
            free(state, input.channel, done, out)?;
            Ok(())
        }
        Request::VerifyTree { .. }
        | Request::DeleteAll { .. }
        | Request::PortManagement { .. }
        | Request::AllPorts => Ok(()),
    }
}

/// The branch of a grant is made.
fn start_grant<P: Policy>(state: &mut PortState<P>, channel: Channel, done: &BranchDone)
    requires { (input output : EndValue) × (done.now.request ≡ AddBranch input output) × ((input.port.0 == 0) ≡ true) × (output.channel ≡ channel) }
    ensures fixed { state.new.fixed ≡ state.old.fixed }
    ensures work { (n : ℕ) (actions : List ActionValue) → started (begun state.old.port actions n) (grant_on state.old.port.grants (label_number_of channel)) ≡ begun state.new.port actions n }
{
    let Some(label) = label_number(channel) else {
        return;
    };
    let Some(grant) = state.grant(label) else {
        return;
    };
    match grant.state {
        GrantState::Idle => state.start(label, done),
        GrantState::ByController | GrantState::ByInput | GrantState::Leaving => {}
    }
}

/// A label's branch to the controller is made, and it is offered at once.
fn bind<P: Policy>(
    state: &mut PortState<P>,
    channel: Channel,
    done: &BranchDone,
    out: &mut Actions,
) -> Result<(), Stop>
    requires { (input output : EndValue) × (done.now.request ≡ AddBranch input output) × ((input.port.0 == 0) ≡ false) × (input.channel ≡ channel) }
    ensures fixed { state.new.fixed ≡ state.old.fixed }
    ensures work { (n : ℕ) → Ends result state.new.port out.new n (bound (setup_of P.meaning state.old.fixed) (begun state.old.port out.old n) (label_by state.old.port (label_number_of channel))) }
{
    let Some(label) = label_by(state, channel) else {
        return Ok(());
    };
    match label.state {
        HeldState::Wiring => offer(state, &label, done, out),
        HeldState::Offered | HeldState::Recalled { .. } | HeldState::Wired => Ok(()),
    }
}

/// A label that was being wired is offered.
fn offer<P: Policy>(
    state: &mut PortState<P>,
    label: &HeldLabel,
    done: &BranchDone,
    out: &mut Actions,
) -> Result<(), Stop>
    requires held { label_at state.old.port label.now.number ≡ Some (label_of label.now) }
    requires wiring { (label_of label.now).state ≡ labels.Wiring }
    requires range { IsTrue (is_label_number label.now.number) }
    requires wires { IsTrue (wires label.now.number done.now.request) }
    ensures fixed { state.new.fixed ≡ state.old.fixed }
    ensures work { (n : ℕ) → Ends result state.new.port out.new n (bound_in (setup_of P.meaning state.old.fixed) (begun state.old.port out.old n) (label_of label.now) labels.Wiring) }
{
    state.offer(label.number, done);
    out.push(Action::Note(Record::Bind {
        node: state.node(),
        port: state.port(),
        vci: label.number,
        flow: label.flow,
    }))?;
    say_redirect(state, label.number, label.flow, out)
}

/// The branch of a label that was quit is deleted.
fn free<P: Policy>(
    state: &mut PortState<P>,
    channel: Channel,
    done: &BranchDone,
    out: &mut Actions,
) -> Result<(), OutOfMemory>
    requires { (input : EndValue) × (done.now.request ≡ DeleteTree input) × (input.channel ≡ channel) }
    ensures fixed { state.new.fixed ≡ state.old.fixed }
    ensures work { (n : ℕ) → OnOk result (freed (setup_of P.meaning state.old.fixed) (begun state.old.port out.old n) (label_by state.old.port (label_number_of channel)) ≡ begun state.new.port out.new n) }
{
    let Some(label) = label_by(state, channel) else {
        return Ok(());
    };
    match label.state {
        HeldState::Wired => {
            state.free(label.number, done);
            out.push(Action::Note(Record::Free {
                node: state.node(),
                port: state.port(),
                vci: label.number,
            }))
        }
        HeldState::Wiring | HeldState::Offered | HeldState::Recalled { .. } => Ok(()),
    }
}

/// An input is joined to the channel of a link.
fn note_join<P: Policy>(
    state: &PortState<P>,
    input: End,
    output: End,
    out: &mut Actions,
) -> Result<(), OutOfMemory>
    requires { (IsTrue (is_label_channel input.channel)) × ((output.port.0 == 0) ≡ false → IsTrue (is_label_channel output.channel)) }
    ensures work { (n : ℕ) → OnOk result (joined_to (setup_of P.meaning state.now.fixed) (begun state.now.port out.old n) input output ≡ begun state.now.port out.new n) }
{
    if output.port == CONTROL_PORT {
        return Ok(());
    }
    let (Some(vci), Some(to_vci)) = (label_number(input.channel), label_number(output.channel))
    else {
        return Ok(());
    };
    out.push(Action::Note(Record::Join {
        node: state.node(),
        port: state.port(),
        vci,
        to_port: output.port,
        to_vci,
    }))
}
