//! *Reclaim*, *Reclaim Ack*, *Label Range* and *Error* (RFC 1953). That a join is taken back first, and
//! which errors recall a label, are this project's own.

ghost use Rattle.std.specs.Prelude.{◌≡◌, ◌++◌, ℕ, false, option_map, None, Some, IsTrue, OnOk};
ghost use Rattle.net_types.specs.Label.{is_label_number, label_number_of};
ghost use Rattle.port_model.specs.Desk.{Desk as DeskValue};
ghost use Rattle.grant_table.specs.Table.{view_of};
ghost use Rattle.keyed_lists.specs.Keyed.{at};
ghost use Rattle.port_labels.specs.Book.{is_recalled};
ghost use Rattle.port_labels.specs.Read.{label_of};
ghost use Rattle.port_actions.specs.Outlook.{Foresees, Outlook as OutlookValue};
ghost use Rattle.port_model.specs.Grants as grants;
ghost use Rattle.port_model.specs.Grants.{grant_label, grant_on};
ghost use Rattle.port_model.specs.Hearing.{label_by};
ghost use Rattle.port_model.specs.Labels as labels;
ghost use Rattle.port_model.specs.Port.{label_at};
ghost use Rattle.port_model.specs.Reclaiming.{acknowledged, acknowledged_in, error_comes, ranged, reclaimed, reclaimed_in, reclaims, recalls, recalls_in, recalls_outside, unjoins};
ghost use Rattle.port_state.specs.Engine.{setup_of};
ghost use Rattle.port_state.specs.Parts.{numbers_of};
ghost use Rattle.port_saying.specs.Rules.{begun};
ghost use Rattle.port_saying.specs.Rules.{Ends};
ghost use Rattle.port_hearing.specs.Joins.{taken_back};

use crate::hearing::label_by;
use branch_desk::Desk;
use flow_classifier::Policy;
use grant_table::{GrantState, GrantView};
use ipv4_packet::FlowId;
use net_types::{Channel, End, OutOfMemory, label_number};
use port_actions::{Actions, Outlook};
use port_labels::{HeldLabel, HeldState};
use port_model::Action;
use port_saying::{ErrorCode, Stop, Unnumbered, quit, say, say_error, say_reclaim};
use port_state::PortState;

/// An offered label is recalled: RECLAIM is said, and its join is taken back.
pub fn recall<P: Policy>(
    state: &mut PortState<P>,
    label: &HeldLabel,
    out: &mut Actions,
) -> Result<(), Stop>
    requires held { label_at state.old.port label.now.number ≡ Some (label_of label.now) }
    requires offered { (label_of label.now).state ≡ labels.Offered }
    requires range { IsTrue (is_label_number label.now.number) }
    ensures fixed { state.new.fixed ≡ state.old.fixed }
    ensures work { (n : ℕ) → Ends result state.new.port out.new n (recalls (setup_of P.meaning state.old.fixed) (begun state.old.port out.old n) (label_of label.now)) }
    ensures numbers { numbers_of state.new.port ≡ numbers_of state.old.port }
    ensures quiet { (o : OutlookValue) (d : DeskValue) → label.now.join ≡ None → Foresees o d out.old → OnOk result (Foresees o d out.new) }
{
    state.recall(label.number);
    say_reclaim(state, label.number, label.flow, out)?;
    unjoin(state, label.number, label.join, out)?;
    Ok(())
}

/// A recalled label is reclaimed again.
pub fn reclaim_again<P: Policy>(
    state: &mut PortState<P>,
    label: &HeldLabel,
    out: &mut Actions,
) -> Result<(), Stop>
    requires held { label_at state.old.port label.now.number ≡ Some (label_of label.now) }
    requires recalled { (last : ℕ) × ((label_of label.now).state ≡ labels.Recalled last false) }
    requires range { IsTrue (is_label_number label.now.number) }
    ensures fixed { state.new.fixed ≡ state.old.fixed }
    ensures work { (n : ℕ) → Ends result state.new.port out.new n (reclaims (begun state.old.port out.old n) (label_of label.now)) }
    ensures numbers { numbers_of state.new.port ≡ numbers_of state.old.port }
    ensures quiet { (o : OutlookValue) (d : DeskValue) → Foresees o d out.old → OnOk result (Foresees o d out.new) }
{
    state.reclaim_again(label.number);
    say_reclaim(state, label.number, label.flow, out)
}

/// The join of a label is taken back.
fn unjoin<P: Policy>(
    state: &PortState<P>,
    label: u16,
    join: Option<End>,
    out: &mut Actions,
) -> Result<(), OutOfMemory>
    requires { IsTrue (is_label_number label) }
    ensures work { (n : ℕ) → OnOk result (unjoins (setup_of P.meaning state.now.fixed) (begun state.now.port out.old n) label join ≡ begun state.now.port out.new n) }
    ensures none { join ≡ None → out.new ≡ out.old }
{
    match join {
        Some(output) => out.push(Action::TakeBack {
            input: state.label_end(label),
            output,
        }),
        None => Ok(()),
    }
}

/// A label is recalled where it is offered.
fn recall_offered<P: Policy>(
    state: &mut PortState<P>,
    label: &HeldLabel,
    out: &mut Actions,
) -> Result<(), Stop>
    requires held { label_at state.old.port label.now.number ≡ Some (label_of label.now) }
    requires range { IsTrue (is_label_number label.now.number) }
    ensures fixed { state.new.fixed ≡ state.old.fixed }
    ensures work { (n : ℕ) → Ends result state.new.port out.new n (recalls_in (setup_of P.meaning state.old.fixed) (begun state.old.port out.old n) (label_of label.now) (label_of label.now).state) }
    ensures numbers { numbers_of state.new.port ≡ numbers_of state.old.port }
{
    match label.state {
        HeldState::Offered => recall(state, label, out),
        HeldState::Wiring | HeldState::Recalled { .. } | HeldState::Wired => Ok(()),
    }
}

/// RECLAIM comes: a grant that is lent is leaving until its input is released; any other ends, and RECLAIM
/// ACK is said, as it is for a label that isn't granted.
pub(crate) fn reclaimed<P: Policy>(
    state: &mut PortState<P>,
    channel: Channel,
    flow: FlowId,
    out: &mut Actions,
) -> Result<(), Stop>
    ensures fixed { state.new.fixed ≡ state.old.fixed }
    ensures work { (n : ℕ) → Ends result state.new.port out.new n (reclaimed (setup_of P.meaning state.old.fixed) (begun state.old.port out.old n) channel flow (grant_on state.old.port.grants (label_number_of channel))) }
{
    let acknowledgement = Unnumbered::ReclaimAck {
        label: channel,
        flow,
    };
    let Some(label) = label_number(channel) else {
        return say(state, acknowledgement, out);
    };
    let Some(grant) = state.grant(label) else {
        return say(state, acknowledgement, out);
    };
    if grant.flow != flow {
        return say_error(state, ErrorCode::Mismatch, channel, out);
    }
    reclaim_grant(state, channel, label, grant, out)
}

/// A grant is reclaimed by its flow.
fn reclaim_grant<P: Policy>(
    state: &mut PortState<P>,
    channel: Channel,
    label: u16,
    grant: GrantView,
    out: &mut Actions,
) -> Result<(), Stop>
    requires label { IsTrue (is_label_number label) }
    requires grant { option_map view_of (at grant_label label state.old.port.grants) ≡ Some grant }
    ensures fixed { state.new.fixed ≡ state.old.fixed }
    ensures work { (n : ℕ) (g : grants.Grant) → at grant_label label state.old.port.grants ≡ Some g → Ends result state.new.port out.new n (reclaimed_in (setup_of P.meaning state.old.fixed) (begun state.old.port out.old n) channel g g.state) }
{
    match grant.state {
        GrantState::Idle | GrantState::ByController => {
            state.end(label);
            let acknowledgement = Unnumbered::ReclaimAck {
                label: channel,
                flow: grant.flow,
            };
            say(state, acknowledgement, out)
        }
        GrantState::ByInput => {
            state.leave(label, true);
            take_back(state, label, grant.input, out)?;
            Ok(())
        }
        GrantState::Leaving => {
            state.leave(label, true);
            Ok(())
        }
    }
}

/// The input that a grant is lent to is taken back.
pub fn take_back<P: Policy>(
    state: &PortState<P>,
    label: u16,
    input: Option<End>,
    out: &mut Actions,
) -> Result<(), OutOfMemory>
    requires { IsTrue (is_label_number label) }
    ensures { OnOk result (out.new ≡ out.old ++ taken_back state.now.fixed.port label input) }
{
    match input {
        Some(input) => out.push(Action::TakeBack {
            input,
            output: state.label_end(label),
        }),
        None => Ok(()),
    }
}

/// RECLAIM ACK comes: a recalled label that is bound to its flow is acknowledged, and quit where the peer
/// expects a number above that of its last RECLAIM.
pub(crate) fn acknowledged<P: Policy>(
    state: &mut PortState<P>,
    channel: Channel,
    flow: FlowId,
    desk: &Desk,
    out: &mut Actions,
) -> Result<(), Stop>
    ensures fixed { state.new.fixed ≡ state.old.fixed }
    ensures work { (n : ℕ) → Ends result state.new.port out.new n (acknowledged (setup_of P.meaning state.old.fixed) desk.now (begun state.old.port out.old n) flow (label_by state.old.port (label_number_of channel))) }
{
    let Some(label) = label_by(state, channel) else {
        return Ok(());
    };
    if label.flow != flow {
        return Ok(());
    }
    match label.state {
        HeldState::Recalled { .. } => {
            acknowledge(state, label.number, desk, out)?;
            Ok(())
        }
        HeldState::Wiring | HeldState::Offered | HeldState::Wired => Ok(()),
    }
}

/// A recalled label is acknowledged.
fn acknowledge<P: Policy>(
    state: &mut PortState<P>,
    label: u16,
    desk: &Desk,
    out: &mut Actions,
) -> Result<(), OutOfMemory>
    requires { (held : labels.Label) × (label_at state.old.port label ≡ Some held) × IsTrue (is_recalled held.state) }
    ensures fixed { state.new.fixed ≡ state.old.fixed }
    ensures work { (n : ℕ) (held : labels.Label) → label_at state.old.port label ≡ Some held → OnOk result (acknowledged_in (setup_of P.meaning state.old.fixed) desk.now (begun state.old.port out.old n) held held.state ≡ begun state.new.port out.new n) }
{
    state.acknowledge(label);
    let mut outlook = Outlook::of(state.alloc(), desk, out)?;
    quit(state, label, desk, &mut outlook, out)
}

/// LABEL RANGE comes: the session's range is narrowed to the common part, and the labels that are offered
/// outside it are recalled, the lowest first.
pub(crate) fn ranged<P: Policy>(
    state: &mut PortState<P>,
    least: Channel,
    greatest: Channel,
    out: &mut Actions,
) -> Result<(), Stop>
    ensures fixed { state.new.fixed ≡ state.old.fixed }
    ensures work { (n : ℕ) → Ends result state.new.port out.new n (ranged (setup_of P.meaning state.old.fixed) (begun state.old.port out.old n) least greatest) }
{
    state.narrow(least, greatest);
    for place in 0..state.held() {
        if let Some(number) = state.number_at(place) {
            recall_outside(state, number, out)?;
        }
    }
    Ok(())
}

/// A label is recalled where it is offered and lies outside the narrowed range.
fn recall_outside<P: Policy>(
    state: &mut PortState<P>,
    label: u16,
    out: &mut Actions,
) -> Result<(), Stop>
    ensures fixed { state.new.fixed ≡ state.old.fixed }
    ensures work { (n : ℕ) → Ends result state.new.port out.new n (recalls_outside (setup_of P.meaning state.old.fixed) (begun state.old.port out.old n) label) }
    ensures numbers { numbers_of state.new.port ≡ numbers_of state.old.port }
{
    let Some(HeldState::Offered) = state.state_at(label) else {
        return Ok(());
    };
    let Some(held) = state.label_at(label) else {
        return Ok(());
    };
    if !state.is_outside(held.number) {
        return Ok(());
    }
    recall_offered(state, &held, out)
}

/// ERROR comes: but for code 2, its label is recalled where it is offered.
pub(crate) fn error_comes<P: Policy>(
    state: &mut PortState<P>,
    code: u8,
    channel: Channel,
    out: &mut Actions,
) -> Result<(), Stop>
    ensures fixed { state.new.fixed ≡ state.old.fixed }
    ensures work { (n : ℕ) → Ends result state.new.port out.new n (error_comes (setup_of P.meaning state.old.fixed) (begun state.old.port out.old n) code (label_by state.old.port (label_number_of channel))) }
{
    if code == ErrorCode::Leaving.code() {
        return Ok(());
    }
    match label_by(state, channel) {
        Some(label) => recall_offered(state, &label, out),
        None => Ok(()),
    }
}
