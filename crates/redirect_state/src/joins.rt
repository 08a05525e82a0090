//! *Joins*: what the release of a join is to the port of the grant.

ghost use Rattle.std.specs.Prelude.{◌≡◌, ℕ, true, IsTrue, OnOk, Some};
ghost use Rattle.net_types.specs.Label.{is_label_number};
ghost use Rattle.grant_table.specs.Table.{can_end};
ghost use Rattle.keyed_lists.specs.Keyed.{at};
ghost use Rattle.port_model.specs.Grants as grants;
ghost use Rattle.port_model.specs.Grants.{grant_label};
ghost use Rattle.port_model.specs.Joins.{given_back};
ghost use Rattle.port_saying.specs.Rules.{begun};
ghost use Rattle.redirect_state.specs.Calls.{is_released_by};

use branch_desk::BranchDone;
use flow_classifier::Policy;
use grant_table::GrantState;
use ipv4_packet::FlowId;
use net_types::{OutOfMemory, label_channel};
use port_actions::Actions;
use port_saying::{Unnumbered, tell};
use port_state::PortState;

/// The input of a lent grant is released: the grant is the controller's again, or where it is leaving it
/// ends, and its acknowledgement is said if it is owed.
pub(crate) fn give_back<P: Policy>(
    state: &mut PortState<P>,
    label: u16,
    done: &BranchDone,
    out: &mut Actions,
) -> Result<(), OutOfMemory>
    requires { (grant : grants.Grant) × (at grant_label label state.old.port.grants ≡ Some grant) × IsTrue (is_released_by done.now.request grant.state) }
    ensures fixed { state.new.fixed ≡ state.old.fixed }
    ensures work { (n : ℕ) (grant : grants.Grant) → at grant_label label state.old.port.grants ≡ Some grant → OnOk result (given_back (begun state.old.port out.old n) grant ≡ begun state.new.port out.new n) }
{
    let Some(grant) = state.grant(label) else {
        return Ok(());
    };
    match grant.state {
        GrantState::ByInput => {
            state.give_back(label, done);
            Ok(())
        }
        GrantState::Idle | GrantState::ByController | GrantState::Leaving => {
            end_leaving(state, label, grant.flow, done, out)
        }
    }
}

/// A leaving grant ends, and its acknowledgement is said if it is owed.
fn end_leaving<P: Policy>(
    state: &mut PortState<P>,
    label: u16,
    flow: FlowId,
    done: &BranchDone,
    out: &mut Actions,
) -> Result<(), OutOfMemory>
    requires label { IsTrue (is_label_number label) }
    requires grant { (grant : grants.Grant) × (at grant_label label state.old.port.grants ≡ Some grant) × (can_end (Some done.now.request) grant.state ≡ true) × (grant.flow ≡ flow) }
    ensures fixed { state.new.fixed ≡ state.old.fixed }
    ensures work { (n : ℕ) (grant : grants.Grant) → at grant_label label state.old.port.grants ≡ Some grant → OnOk result (given_back (begun state.old.port out.old n) grant ≡ begun state.new.port out.new n) }
{
    if !state.end_leaving(label, done) {
        return Ok(());
    }
    let acknowledgement = Unnumbered::ReclaimAck {
        label: label_channel(label),
        flow,
    };
    tell(state, acknowledgement, out)
}
