//! *Port reset* and *Restart*.

ghost use Rattle.std.specs.Prelude.{◌≡◌, ◌<◌, ◌≤◌, ◌+◌, ◌++◌, ℕ, flat_map, length, slice_get, take, IsTrue, IfOk, IfSome, OnOk, Some};
ghost use Rattle.keyed_lists.specs.Keyed.{at};
ghost use Rattle.port_model.specs.Grants as grants;
ghost use Rattle.port_model.specs.Grants.{grant_label};
ghost use Rattle.net_types.specs.Label.{is_label_number};
ghost use Rattle.port_model.specs.Resets.{closing, left_of, resets, restarts, taking_back, withdrawing, withdrawing_of};
ghost use Rattle.port_state.specs.Engine.{setup_of};
ghost use Rattle.port_state.specs.Parts.{with_grants};
ghost use Rattle.port_saying.specs.Rules.{begun};
ghost use Rattle.redirect_state.specs.Calls.{HasDone};
ghost use Rattle.redirect_state.specs.Rules.{IsOver};

use flow_classifier::Policy;
use grant_table::GrantState;
use gsmp_wire::Request;
use link_model::Record;
use net_types::{Instance, OutOfMemory};
use port_actions::Actions;
use port_hearing::take_back;
use port_model::Action;
use port_state::PortState;

/// The port begins anew: its session ends, the requests for branches of the grants that end are
/// withdrawn, the joins to its grants are taken back, and Delete All of it is asked.
pub(crate) fn reset<P: Policy>(
    state: &mut PortState<P>,
    own: Instance,
    out: &mut Actions,
) -> Result<(), OutOfMemory>
    requires { 1 ≤ own.0 }
    ensures fixed { state.new.fixed ≡ state.old.fixed }
    ensures work { (n : ℕ) → own ≡ record { 0 = n + 1 } → OnOk result (HasDone state.old state.new out.new (n + 1) (resets (setup_of P.meaning state.old.fixed) (begun state.old.port out.old n))) }
{
    close(state, out)?;
    state.end_session();
    withdraw_grants(state, out)?;
    leave_grants(state, out)?;
    out.push(Action::Ask {
        request: Request::DeleteAll { port: state.port() },
        needed: true,
    })?;
    state.begin_anew(own);
    Ok(())
}

/// The port begins anew with its controller: its session and its grants end, and nothing is asked.
pub(crate) fn restart<P: Policy>(
    state: &mut PortState<P>,
    own: Instance,
    out: &mut Actions,
) -> Result<(), OutOfMemory>
    requires { 1 ≤ own.0 }
    ensures fixed { state.new.fixed ≡ state.old.fixed }
    ensures work { (n : ℕ) → own ≡ record { 0 = n + 1 } → OnOk result (HasDone state.old state.new out.new (n + 1) (restarts (setup_of P.meaning state.old.fixed) (begun state.old.port out.old n))) }
{
    close(state, out)?;
    state.end_session();
    state.clear_grants();
    state.begin_anew(own);
    Ok(())
}

/// The session is to end, if one is open: its pool is given up, and the chains of its labels' channels are
/// cut.
fn close<P: Policy>(state: &PortState<P>, out: &mut Actions) -> Result<(), OutOfMemory>
    ensures { OnOk result (out.new ≡ out.old ++ closing (setup_of P.meaning state.now.fixed) state.now.port.session) }
{
    if !state.has_session() {
        return Ok(());
    }
    out.push(Action::Note(Record::Closed {
        node: state.node(),
        port: state.port(),
    }))?;
    for place in 0..state.held() {
        if let Some(number) = state.number_at(place) {
            out.push(Action::CutChain { vci: number })?;
        }
    }
    Ok(())
}

/// The requests for branches of the grants that end are withdrawn.
fn withdraw_grants<P: Policy>(state: &PortState<P>, out: &mut Actions) -> Result<(), OutOfMemory>
    ensures { OnOk result (out.new ≡ out.old ++ withdrawing (setup_of P.meaning state.now.fixed) state.now.port.grants) }
{
    for place in 0..state.granted() {
        if let Some(label) = state.grant_at(place) {
            withdraw_grant(state, label, out)?;
        }
    }
    Ok(())
}

/// The request for the branch of a grant is withdrawn where the grant ends.
fn withdraw_grant<P: Policy>(
    state: &PortState<P>,
    label: u16,
    out: &mut Actions,
) -> Result<(), OutOfMemory>
    requires { IsTrue (is_label_number label) }
    ensures { IfSome (at grant_label label state.now.port.grants) (λ grant. OnOk result (out.new ≡ out.old ++ withdrawing_of (setup_of P.meaning state.now.fixed) grant)) }
{
    let Some(grant) = state.grant(label) else {
        return Ok(());
    };
    match grant.state {
        GrantState::Idle | GrantState::ByController => out.push(Action::Withdraw {
            input: state.control_end(label),
        }),
        GrantState::ByInput | GrantState::Leaving => Ok(()),
    }
}

/// A grant that no input is joined to ends; one that is lent is to end when its input is released, owing
/// nothing, and its join is taken back.
fn leave_grants<P: Policy>(state: &mut PortState<P>, out: &mut Actions) -> Result<(), OutOfMemory>
    ensures fixed { state.new.fixed ≡ state.old.fixed }
    ensures port { OnOk result (state.new.port ≡ record state.old.port { grants = flat_map left_of state.old.port.grants }) }
    ensures actions { OnOk result (out.new ≡ out.old ++ flat_map (taking_back (setup_of P.meaning state.old.fixed)) state.old.port.grants) }
{
    let mut place = 0;
    while place < state.granted() {
        place = leave_grant(state, place, out)?;
    }
    Ok(())
}

/// One grant: the answer is the index of the next one.
fn leave_grant<P: Policy>(
    state: &mut PortState<P>,
    place: usize,
    out: &mut Actions,
) -> Result<usize, OutOfMemory>
    requires { place < length state.old.port.grants }
    ensures fixed { state.new.fixed ≡ state.old.fixed }
    ensures port { state.new.port ≡ with_grants state.old.port state.new.port.grants }
    ensures front { (grant : grants.Grant) → slice_get state.old.port.grants place ≡ Some grant → IfOk result (λ next. take next state.new.port.grants ≡ take place state.old.port.grants ++ left_of grant) }
    ensures over { IfOk result (λ next. IsOver state.old.port.grants state.new.port.grants place next) }
    ensures actions { (grant : grants.Grant) → slice_get state.old.port.grants place ≡ Some grant → OnOk result (out.new ≡ out.old ++ taking_back (setup_of P.meaning state.old.fixed) grant) }
{
    // each is of another label
    let _many = state.granted();
    let Some(label) = state.grant_at(place) else {
        unreachable!()
    };
    let Some(grant) = state.grant(label) else {
        unreachable!()
    };
    match grant.state {
        GrantState::Idle | GrantState::ByController => {
            state.end(label);
            Ok(place)
        }
        GrantState::ByInput => {
            state.leave(label, false);
            take_back(state, label, grant.input, out)?;
            Ok(place + 1)
        }
        GrantState::Leaving => {
            state.leave(label, false);
            Ok(place + 1)
        }
    }
}
