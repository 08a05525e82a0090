//! *IFMP adjacency*: labels are quit that the peer can't use any more. That it does so by what the peer is
//! known to expect is this project's own.

ghost use Rattle.std.specs.Prelude.{◌≡◌, ℕ, false, nat_lt, IsOk, IsTrue, OnOk};
ghost use Rattle.std.specs.Option.{option_map_or};
ghost use Rattle.net_types.specs.Label.{is_label_number};
ghost use Rattle.port_labels.specs.Book.{is_passed, is_recalled};
ghost use Rattle.port_labels.specs.Read.{state_from};
ghost use Rattle.port_actions.specs.Outlook.{Foresees, stands};
ghost use Rattle.port_model.specs.Adjacency.{quits, unwires};
ghost use Rattle.port_model.specs.Port.{known_of, label_at};
ghost use Rattle.port_model.specs.Setup.{label_end};
ghost use Rattle.port_state.specs.Engine.{setup_of};
ghost use Rattle.port_state.specs.Parts.{numbers_of};
ghost use Rattle.port_saying.specs.Rules.{begun};

use branch_desk::Desk;
use flow_classifier::Policy;
use gsmp_wire::Request;
use net_types::OutOfMemory;
use port_actions::{Actions, Outlook};
use port_labels::HeldState;
use port_model::Action;
use port_state::PortState;

/// Whether a label was reclaimed.
pub fn is_recalled(state: HeldState) -> bool
    ensures { result ≡ is_recalled (state_from state) }
{
    match state {
        HeldState::Recalled { .. } => true,
        HeldState::Wiring | HeldState::Offered | HeldState::Wired => false,
    }
}

/// A label is quit where it is acknowledged and the peer expects a number above that of its last RECLAIM:
/// its chain is cut, and its branch is to be deleted. Elsewhere nothing changes, and no memory is wanting.
pub fn quit<P: Policy>(
    state: &mut PortState<P>,
    label: u16,
    desk: &Desk,
    outlook: &mut Outlook,
    out: &mut Actions,
) -> Result<(), OutOfMemory>
    requires outlook { Foresees outlook.old desk.now out.old }
    ensures fixed { state.new.fixed ≡ state.old.fixed }
    ensures work { (n : ℕ) → OnOk result (quits (setup_of P.meaning state.old.fixed) desk.now (begun state.old.port out.old n) label ≡ begun state.new.port out.new n) }
    ensures numbers { numbers_of state.new.port ≡ numbers_of state.old.port }
    ensures outlook { OnOk result (Foresees outlook.new desk.now out.new) }
    ensures memory { option_map_or (λ held. is_passed (known_of state.old.port) held.state) (label_at state.old.port label) false ≡ false → IsOk result }
{
    let Some(held) = state.label_at(label) else {
        return Ok(());
    };
    if !is_recalled(held.state) {
        return Ok(());
    }
    if !state.quit(label) {
        return Ok(());
    }
    out.push(Action::CutChain { vci: label })?;
    unwire(state, label, desk, outlook, out)
}

/// Delete Tree of a label is asked where fewer than 1,024 requests will stand, or in the place of one that
/// stands on its input. Elsewhere no memory is wanting.
pub fn unwire<P: Policy>(
    state: &PortState<P>,
    label: u16,
    desk: &Desk,
    outlook: &mut Outlook,
    out: &mut Actions,
) -> Result<(), OutOfMemory>
    requires number { IsTrue (is_label_number label) }
    requires outlook { Foresees outlook.old desk.now out.old }
    ensures work { (n : ℕ) → OnOk result (unwires (setup_of P.meaning state.now.fixed) desk.now (begun state.now.port out.old n) label ≡ begun state.now.port out.new n) }
    ensures outlook { OnOk result (Foresees outlook.new desk.now out.new) }
    ensures memory { stands outlook.old desk.now (label_end state.now.fixed.port label) ≡ false → nat_lt outlook.old.many 1024 ≡ false → IsOk result }
{
    let input = state.label_end(label);
    let takes_place = outlook.on_input(desk, input);
    if !takes_place && !outlook.has_room() {
        return Ok(());
    }
    outlook.ask(desk, input)?;
    out.push(Action::Ask {
        request: Request::DeleteTree { input },
        needed: takes_place,
    })
}
