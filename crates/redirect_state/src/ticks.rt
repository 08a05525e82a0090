//! *Tick*: lifetimes, refreshes, idle labels. The order, the counts and the refresh are this project's own;
//! redirections are soft state (RFC 1953).

ghost use Rattle.std.specs.Prelude.{◌≡◌, ◌<◌, ℕ, false, List, length, slice_get, map as map_list, fold, Some, IsTrue, IfOk, OnOk};
ghost use Rattle.net_types.specs.Label.{is_label_number};
ghost use Rattle.port_model.specs.Desk.{Desk as DeskValue};
ghost use Rattle.port_labels.specs.Read.{label_of};
ghost use Rattle.port_actions.specs.Outlook.{Foresees, Outlook as OutlookValue};
ghost use Rattle.port_model.specs.declared.action.Action.{Action as ActionValue};
ghost use Rattle.port_model.specs.Labels as labels;
ghost use Rattle.port_model.specs.Grants as grants;
ghost use Rattle.port_model.specs.Grants.{grant_label};
ghost use Rattle.port_model.specs.Port.{label_at};
ghost use Rattle.port_model.specs.Ticks.{ages, moves_windows, nudges, one_older, refreshes, ticks, ticks_in, ticks_label};
ghost use Rattle.port_state.specs.Engine.{setup_of};
ghost use Rattle.port_state.specs.Parts.{numbers_of};
ghost use Rattle.port_saying.specs.Rules.{begun};
ghost use Rattle.port_saying.specs.Rules.{Ends};
ghost use Rattle.redirect_state.specs.Rules.{IsOver};

use branch_desk::Desk;
use flow_classifier::Policy;
use grant_table::GrantState;
use net_types::OutOfMemory;
use port_actions::{Actions, Outlook};
use port_hearing::{recall, reclaim_again, take_back, tick_side};
use port_labels::{HeldLabel, HeldState};
use port_saying::{Stop, say_range, say_redirect, unwire};
use port_state::PortState;

/// The adjacency's tick comes first; a port that it resets does nothing more. The rest is done in Estab
/// alone.
pub(crate) fn tick<P: Policy>(
    state: &mut PortState<P>,
    desk: &Desk,
    out: &mut Actions,
) -> Result<(), Stop>
    ensures fixed { state.new.fixed ≡ state.old.fixed }
    ensures work { (n : ℕ) → Ends result state.new.port out.new n (ticks (setup_of P.meaning state.old.fixed) desk.now (begun state.old.port out.old n)) }
{
    tick_side(state, out)?;
    if !state.has_session() {
        return Ok(());
    }
    tick_grants(state, out)?;
    tick_labels(state, desk, out)?;
    nudge(state, out)?;
    state.move_windows();
    Ok(())
}

/// Lifetimes, in the order of acceptance.
fn tick_grants<P: Policy>(state: &mut PortState<P>, out: &mut Actions) -> Result<(), OutOfMemory>
    ensures fixed { state.new.fixed ≡ state.old.fixed }
    ensures work { (n : ℕ) → OnOk result (fold (ages (setup_of P.meaning state.old.fixed)) (begun state.old.port out.old n) (map_list grant_label state.old.port.grants) ≡ begun state.new.port out.new n) }
{
    let mut place = 0;
    while place < state.granted() {
        place = age(state, place, out)?;
    }
    Ok(())
}

/// The labels that are held, the lowest first.
fn tick_labels<P: Policy>(
    state: &mut PortState<P>,
    desk: &Desk,
    out: &mut Actions,
) -> Result<(), Stop>
    ensures fixed { state.new.fixed ≡ state.old.fixed }
    ensures work { (n : ℕ) → Ends result state.new.port out.new n (fold (ticks_label (setup_of P.meaning state.old.fixed) desk.now) (begun state.old.port out.old n) (numbers_of state.old.port)) }
{
    let mut outlook = Outlook::of(state.alloc(), desk, out)?;
    for place in 0..state.held() {
        if let Some(number) = state.number_at(place) {
            tick_label(state, number, desk, &mut outlook, out)?;
        }
    }
    Ok(())
}

/// LABEL RANGE is said where a label is acknowledged and its last RECLAIM isn't known to be passed.
fn nudge<P: Policy>(state: &mut PortState<P>, out: &mut Actions) -> Result<(), Stop>
    ensures fixed { state.new.fixed ≡ state.old.fixed }
    ensures work { (n : ℕ) → Ends result state.new.port out.new n (nudges (setup_of P.meaning state.old.fixed) (begun state.old.port out.old n)) }
{
    if state.wants_ack() {
        say_range(state, out)
    } else {
        Ok(())
    }
}

/// A grant that isn't leaving loses one tick of lifetime. Where none is left it ends, or where it is lent
/// its join is taken back. The answer is the index of the next one.
fn age<P: Policy>(
    state: &mut PortState<P>,
    place: usize,
    out: &mut Actions,
) -> Result<usize, OutOfMemory>
    requires { place < length state.old.port.grants }
    ensures fixed { state.new.fixed ≡ state.old.fixed }
    ensures work { (n : ℕ) (grant : grants.Grant) → slice_get state.old.port.grants place ≡ Some grant → OnOk result (ages (setup_of P.meaning state.old.fixed) (begun state.old.port out.old n) grant.label ≡ begun state.new.port out.new n) }
    ensures over { IfOk result (λ next. IsOver state.old.port.grants state.new.port.grants place next) }
{
    // each is of another label
    let _many = state.granted();
    let Some(label) = state.expire(place) else {
        return Ok(place + 1);
    };
    let Some(grant) = state.grant(label) else {
        unreachable!()
    };
    match grant.state {
        GrantState::ByInput => {
            state.leave(label, false);
            take_back(state, label, grant.input, out)?;
            Ok(place + 1)
        }
        GrantState::Idle | GrantState::ByController => {
            state.end(label);
            Ok(place)
        }
        GrantState::Leaving => unreachable!(),
    }
}

/// One label: one that was quit is asked to be unwired, where nothing will stand on its channel; one that
/// was recalled and isn't acknowledged is reclaimed again; one that is offered grows older.
fn tick_label<P: Policy>(
    state: &mut PortState<P>,
    label: u16,
    desk: &Desk,
    outlook: &mut Outlook,
    out: &mut Actions,
) -> Result<(), Stop>
    requires outlook { Foresees outlook.old desk.now out.old }
    ensures fixed { state.new.fixed ≡ state.old.fixed }
    ensures work { (n : ℕ) → Ends result state.new.port out.new n (ticks_label (setup_of P.meaning state.old.fixed) desk.now (begun state.old.port out.old n) label) }
    ensures numbers { numbers_of state.new.port ≡ numbers_of state.old.port }
    ensures outlook { OnOk result (Foresees outlook.new desk.now out.new) }
{
    let Some(held) = state.label_at(label) else {
        return Ok(());
    };
    match held.state {
        HeldState::Wired => {
            unwire_idle(state, label, desk, outlook, out)?;
            Ok(())
        }
        HeldState::Recalled {
            acknowledged: false,
            ..
        } => reclaim_again(state, &held, out),
        HeldState::Offered => tick_offered(state, &held, out),
        HeldState::Wiring | HeldState::Recalled { .. } => Ok(()),
    }
}

/// A label that was quit is asked to be unwired, where nothing will stand on its channel.
fn unwire_idle<P: Policy>(
    state: &PortState<P>,
    label: u16,
    desk: &Desk,
    outlook: &mut Outlook,
    out: &mut Actions,
) -> Result<(), OutOfMemory>
    requires number { IsTrue (is_label_number label) }
    requires outlook { Foresees outlook.old desk.now out.old }
    ensures work { (n : ℕ) (held : labels.Label) → held.number ≡ label → OnOk result (ticks_in (setup_of P.meaning state.now.fixed) desk.now (begun state.now.port out.old n) held labels.Wired ≡ begun state.now.port out.new n) }
    ensures outlook { OnOk result (Foresees outlook.new desk.now out.new) }
{
    if outlook.on_input(desk, state.label_end(label)) {
        return Ok(());
    }
    unwire(state, label, desk, outlook, out)
}

/// An offered label that isn't joined is idle one tick more, and is recalled where the policy doesn't keep
/// it; any other is refreshed when its time has come.
fn tick_offered<P: Policy>(
    state: &mut PortState<P>,
    label: &HeldLabel,
    out: &mut Actions,
) -> Result<(), Stop>
    requires held { label_at state.old.port label.now.number ≡ Some (label_of label.now) }
    requires offered { (label_of label.now).state ≡ labels.Offered }
    requires range { IsTrue (is_label_number label.now.number) }
    ensures fixed { state.new.fixed ≡ state.old.fixed }
    ensures work { (n : ℕ) (d : DeskValue) → Ends result state.new.port out.new n (ticks_in (setup_of P.meaning state.old.fixed) d (begun state.old.port out.old n) (label_of label.now) labels.Offered) }
    ensures numbers { numbers_of state.new.port ≡ numbers_of state.old.port }
    ensures quiet { (o : OutlookValue) (d : DeskValue) → Foresees o d out.old → OnOk result (Foresees o d out.new) }
{
    if label.join.is_some() {
        return refresh(state, label, out);
    }
    let idler = HeldLabel {
        idle: label.idle.saturating_add(1),
        ..*label
    };
    state.set_idle(label.number, idler.idle);
    if state.keeps(&idler.flow, idler.idle) {
        refresh(state, &idler, out)
    } else {
        recall(state, &idler, out)
    }
}

/// An offered label is refreshed when so many ticks went by since its last REDIRECT.
fn refresh<P: Policy>(
    state: &mut PortState<P>,
    label: &HeldLabel,
    out: &mut Actions,
) -> Result<(), Stop>
    requires held { label_at state.old.port label.now.number ≡ Some (label_of label.now) }
    requires range { IsTrue (is_label_number label.now.number) }
    ensures fixed { state.new.fixed ≡ state.old.fixed }
    ensures work { (n : ℕ) → Ends result state.new.port out.new n (refreshes (setup_of P.meaning state.old.fixed) (begun state.old.port out.old n) (one_older (label_of label.now))) }
    ensures numbers { numbers_of state.new.port ≡ numbers_of state.old.port }
    ensures quiet { (o : OutlookValue) (d : DeskValue) → Foresees o d out.old → OnOk result (Foresees o d out.new) }
{
    let ticks = label.ticks.saturating_add(1);
    if ticks < state.refresh() as u32 {
        state.set_ticks(label.number, ticks);
        return Ok(());
    }
    state.set_ticks(label.number, 0);
    say_redirect(state, label.number, label.flow, out)
}
