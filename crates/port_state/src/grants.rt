//! The grants of a port.

ghost use Rattle.std.specs.Prelude.{◌≡◌, ◌<◌, ◌≤◌, [], false, option_map, IsTrue, IsSome, IfSome, None, Some, length, slice_get, if◌then◌else◌};
ghost use Rattle.std.specs.Option.{option_map_or};
ghost use Rattle.net_types.specs.Label.{is_label_number};
ghost use Rattle.ipv4_packet.specs.declared.flow.FlowId.{FlowId as FlowValue};
ghost use Rattle.grant_table.specs.Table.{AreApart, aged, can_end, can_go_back, is_owed, makes_branch, runs_out, told, view_of};
ghost use Rattle.keyed_lists.specs.Keyed.{at};
ghost use Rattle.port_model.specs.Grants as grants;
ghost use Rattle.port_model.specs.Grants.{acceptance_of, grant_label, lent_input};
ghost use Rattle.port_model.specs.Setup.{Policy as PolicyValue};
ghost use Rattle.port_state.specs.Engine.{setup_of};
ghost use Rattle.port_state.specs.Parts.{accepted, is_new, with_grant, with_grants, without_grant};

use crate::state::PortState;
use branch_desk::BranchDone;
use flow_classifier::Policy;
use grant_table::{AcceptFault, Accepted, GrantView, MOST_GRANTS};
use ipv4_packet::FlowId;
use net_types::End;

impl<P: Policy> PortState<P> {
    /// How many grants there are.
    pub fn granted(&self) -> usize
        ensures len { result ≡ length self.now.port.grants }
        ensures few { result ≤ 256 }
        ensures apart { AreApart self.now.port.grants }
    {
        self.grants.len()
    }

    /// The label of the grant at an index in the order of acceptance.
    pub fn grant_at(&self, place: usize) -> Option<u16>
        ensures label { result ≡ option_map grant_label (slice_get self.now.port.grants place) }
        ensures found { IfSome result (λ label. at grant_label label self.now.port.grants ≡ slice_get self.now.port.grants place) }
        ensures range { IfSome result (λ label. IsTrue (is_label_number label)) }
    {
        // each is of a label
        let _many = self.grants.len();
        self.grants.at(place)
    }

    /// The grant of a label.
    pub fn grant(&self, label: u16) -> Option<GrantView>
        ensures grant { result ≡ option_map view_of (at grant_label label self.now.port.grants) }
        ensures range { IfSome result (λ grant. IsTrue (is_label_number label)) }
    {
        // each is of a label
        let _many = self.grants.len();
        self.grants.get(label)
    }

    /// Whether the table would make a new grant of the label.
    pub fn is_new(&self, label: u16) -> bool
        requires { IsTrue (is_label_number label) }
        ensures { (meaning : P → PolicyValue) (flow : FlowValue) → result ≡ is_new (acceptance_of (setup_of meaning self.now.fixed) self.now.port.grants flow (Some label)) }
    {
        self.setup.least <= label
            && label <= self.setup.greatest
            && self.grants.get(label).is_none()
            && self.grants.len() < MOST_GRANTS
    }

    /// Takes a REDIRECT in, as the table does.
    pub fn accept(
        &mut self,
        label: u16,
        flow: FlowId,
        lifetime: u16,
    ) -> Result<Accepted, AcceptFault>
        requires { IsTrue (is_label_number label) }
        ensures fixed { self.new.fixed ≡ self.old.fixed }
        ensures answer { (meaning : P → PolicyValue) → result ≡ told (acceptance_of (setup_of meaning self.old.fixed) self.old.port.grants flow (Some label)) }
        ensures port { (meaning : P → PolicyValue) → self.new.port ≡ accepted self.old.port flow lifetime (acceptance_of (setup_of meaning self.old.fixed) self.old.port.grants flow (Some label)) }
    {
        let accepted = self.grants.accept(label, flow, lifetime);
        if accepted.is_ok() {
            self.redirects = self.redirects.saturating_add(1);
        }
        accepted
    }

    /// The branch of an idle grant is made.
    pub fn start(&mut self, label: u16, done: &BranchDone)
        requires idle { option_map (λ grant. grant.state) (at grant_label label self.old.port.grants) ≡ Some grants.Idle }
        requires done { IsTrue (makes_branch label done.now.request) }
        ensures fixed { self.new.fixed ≡ self.old.fixed }
        ensures port { IfSome (at grant_label label self.old.port.grants) (λ grant. self.new.port ≡ with_grant self.old.port (record grant { state = grants.ByController })) }
    {
        self.grants.started(label, done);
    }

    /// A grant under which the controller sends is lent to an input.
    pub fn lend(&mut self, label: u16, input: End)
        requires { option_map (λ grant. grant.state) (at grant_label label self.old.port.grants) ≡ Some grants.ByController }
        ensures fixed { self.new.fixed ≡ self.old.fixed }
        ensures port { IfSome (at grant_label label self.old.port.grants) (λ grant. self.new.port ≡ with_grant self.old.port (record grant { state = grants.ByInput input })) }
    {
        self.grants.lend(label, input);
    }

    /// A grant that is lent is to end when its input is released.
    pub fn leave(&mut self, label: u16, owed: bool)
        requires { IsSome (option_map_or (λ grant. lent_input grant.state) (at grant_label label self.old.port.grants) None) }
        ensures fixed { self.new.fixed ≡ self.old.fixed }
        ensures port { IfSome (at grant_label label self.old.port.grants) (λ grant. IfSome (lent_input grant.state) (λ input. self.new.port ≡ with_grant self.old.port (record grant { state = grants.Leaving input owed }))) }
    {
        self.grants.leave(label, owed);
    }

    /// The input of a lent grant is released: the grant is the controller's again.
    pub fn give_back(&mut self, label: u16, done: &BranchDone)
        requires { IsTrue (option_map_or (λ grant. can_go_back done.now.request grant.state) (at grant_label label self.old.port.grants) false) }
        ensures fixed { self.new.fixed ≡ self.old.fixed }
        ensures port { IfSome (at grant_label label self.old.port.grants) (λ grant. self.new.port ≡ with_grant self.old.port (record grant { state = grants.ByController })) }
    {
        self.grants.back(label, done);
    }

    /// A grant ends to which no input is joined.
    pub fn end(&mut self, label: u16)
        requires { IsTrue (option_map_or (λ grant. can_end None grant.state) (at grant_label label self.old.port.grants) false) }
        ensures fixed { self.new.fixed ≡ self.old.fixed }
        ensures port { self.new.port ≡ without_grant self.old.port label }
    {
        self.grants.end(label, None);
    }

    /// A leaving grant ends, whose input is released. The answer tells whether the peer is owed an
    /// acknowledgement.
    pub fn end_leaving(&mut self, label: u16, done: &BranchDone) -> bool
        requires { IsTrue (option_map_or (λ grant. can_end (Some done.now.request) grant.state) (at grant_label label self.old.port.grants) false) }
        ensures fixed { self.new.fixed ≡ self.old.fixed }
        ensures port { self.new.port ≡ without_grant self.old.port label }
        ensures owed { option_map (λ grant. is_owed grant.state) (at grant_label label self.old.port.grants) ≡ Some result }
    {
        self.grants.end(label, Some(done))
    }

    /// Takes one tick of lifetime from the grant at an index, unless it is leaving or has none left. The
    /// answer is its label exactly where none is left by this call.
    pub fn expire(&mut self, place: usize) -> Option<u16>
        requires { place < length self.old.port.grants }
        ensures fixed { self.new.fixed ≡ self.old.fixed }
        ensures port { IfSome (slice_get self.old.port.grants place) (λ grant. self.new.port ≡ with_grant self.old.port (aged grant)) }
        ensures label { IfSome (slice_get self.old.port.grants place) (λ grant. result ≡ (if runs_out grant then Some grant.label else None)) }
        ensures found { IfSome (slice_get self.old.port.grants place) (λ grant. at grant_label grant.label self.old.port.grants ≡ Some grant) }
    {
        // a place is that of its label
        let _label = self.grants.at(place);
        self.grants.expire(place)
    }

    /// Gives all grants up.
    pub fn clear_grants(&mut self)
        ensures fixed { self.new.fixed ≡ self.old.fixed }
        ensures port { self.new.port ≡ with_grants self.old.port [] }
    {
        self.grants.clear();
    }
}
