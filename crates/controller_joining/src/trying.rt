//! *Joining*: the input of a label is led straight to the output under a grant of the next hop's flow
//! (Newman, Minshall and Lyon; the rules are this project's own).

ghost use Rattle.std.specs.Prelude.{◌≡◌, ◌≤◌, fold, length, option_map, IsTrue, OnOk, Some};
ghost use Rattle.net_types.specs.Label.{is_label_number};
ghost use Rattle.port_labels.specs.Read.{label_of};
ghost use Rattle.port_model.specs.Setup.{label_end};
ghost use Rattle.controller_joins.specs.world_model.Joins.{Join, join_for, joins, label_on, may_join, tries_join, tries_joins};
ghost use Rattle.law_join_facts.specs.Joins.{HaveNumbers, inputs_on};
ghost use Rattle.controller_joins.specs.Joined.{joined_of};
ghost use Rattle.controller_router.specs.Node.{ports_in};
ghost use Rattle.controller_joining.specs.Conditions.{CanTryJoin, CanTryJoins, EachCanBeTried, IsGrantOf, IsPlanned};
ghost use Rattle.controller_joining.specs.Joining.{AreJoined, acted, controller_of};

use crate::changing::output_of;
use crate::joining::JoiningRouter;
use branch_desk::MOST_ASKED;
use controller_gsmp::{home_of, label_end};
use controller_joins::Joined;
use controller_router::PortEngine;
use cut_through::{planned_label, plans_are_the_controllers, route_of};
use gsmp_wire::Request;
use ipv4_packet::FlowId;
use link_model::Notes;
use net_types::{End, MOST_LABELS, Numbers, OutOfMemory, PortNo};
use port_labels::{HeldLabel, HeldState};

impl<E: PortEngine> JoiningRouter<E> {
    /// The join of an input that goes on by the route of its flow's destination, to the first grant there
    /// for the flow one hop further.
    fn join_for(&self, input: End, flow: &FlowId) -> Option<Joined>
        ensures { result ≡ option_map joined_of (join_for (controller_of E.seen self.now) input flow.now) }
    {
        plans_are_the_controllers();
        let port = route_of(flow, self.router.routes().table())?;
        let grants = self.router.grants_at(port)?;
        let label = planned_label(flow, grants)?;
        Some(Joined { input, port, label })
    }

    /// Whether a label may be joined: it is offered and not joined, nothing stands on its channel, fewer
    /// than 1,024 requests stand, and no change of routes that is begun leads its flow elsewhere.
    fn may_join(&self, input: End, label: &HeldLabel) -> bool
        ensures { result ≡ may_join (controller_of E.seen self.now) input (label_of label.now) }
    {
        if label.state != HeldState::Offered || label.join.is_some() {
            return false;
        }
        let desk = self.router.client().requests().desk();
        if desk.on_input(input) || desk.standing() >= MOST_ASKED {
            return false;
        }
        self.router.routes().stays(&label.flow)
    }

    /// Enters a join of a label at its grant and at the label, and then asks Move Branch.
    fn join(
        &mut self,
        label: u16,
        joined: Joined,
        numbers: &mut Numbers,
        notes: &mut Notes,
    ) -> Result<(), OutOfMemory>
        requires joined { AreJoined E.seen self.old }
        requires port { (1 ≤ joined.input.port.0) × (joined.input.port.0 ≤ 8) }
        requires number { IsTrue (is_label_number label) × (joined.input ≡ label_end joined.input.port label) }
        requires join { IsPlanned (acted E.seen self.old notes.old numbers.old) label joined }
        ensures acted { (join : Join) → joined_of join ≡ joined → IsGrantOf (controller_of E.seen self.old) join → OnOk result (acted E.seen self.new notes.new numbers.new ≡ joins (acted E.seen self.old notes.old numbers.old) (Some join)) }
        ensures joined { OnOk result (AreJoined E.seen self.new) }
        ensures ports { ports_in E.seen self.new.router ≡ ports_in E.seen self.old.router }
    {
        let input = joined.input;
        let output = output_of(&joined);
        let stood = self.stands();
        self.joins.enter(joined)?;
        self.router.lend(joined.port, joined.label, input);
        self.router.join_label(input.port, label, output);
        let request = Request::MoveBranch {
            input,
            from: home_of(input),
            to: output,
        };
        self.router.ask(request, numbers, notes)?;
        self.settle(stood);
        Ok(())
    }

    /// Tries to join a label that a port holds.
    fn try_label(
        &mut self,
        port: PortNo,
        label: &HeldLabel,
        numbers: &mut Numbers,
        notes: &mut Notes,
    ) -> Result<(), OutOfMemory>
        requires joined { AreJoined E.seen self.old }
        requires port { (1 ≤ port.0) × (port.0 ≤ 8) }
        requires number { IsTrue (is_label_number label.now.number) }
        requires held { label_on (controller_of E.seen self.old) (label_end port label.now.number) ≡ Some (label_of label.now) }
        requires can { CanTryJoin (acted E.seen self.old notes.old numbers.old) (label_end port label.now.number) }
        ensures acted { OnOk result (acted E.seen self.new notes.new numbers.new ≡ tries_join (acted E.seen self.old notes.old numbers.old) (label_end port label.now.number)) }
        ensures joined { OnOk result (AreJoined E.seen self.new) }
        ensures ports { ports_in E.seen self.new.router ≡ ports_in E.seen self.old.router }
    {
        let input = label_end(port, label.number);
        if !self.may_join(input, label) {
            return Ok(());
        }
        match self.join_for(input, &label.flow) {
            Some(joined) => self.join(label.number, joined, numbers, notes),
            None => Ok(()),
        }
    }

    /// Tries to join each label that a port holds, the lowest first.
    fn try_port(
        &mut self,
        port: PortNo,
        numbers: &mut Numbers,
        notes: &mut Notes,
    ) -> Result<(), OutOfMemory>
        requires joined { AreJoined E.seen self.old }
        requires port { (1 ≤ port.0) × (port.0 ≤ 8) }
        requires numbers { HaveNumbers (controller_of E.seen self.old) }
        requires few { length (inputs_on (controller_of E.seen self.old) port) ≤ 16384 }
        requires can { EachCanBeTried (acted E.seen self.old notes.old numbers.old) (inputs_on (controller_of E.seen self.old) port) }
        ensures acted { OnOk result (acted E.seen self.new notes.new numbers.new ≡ fold tries_join (acted E.seen self.old notes.old numbers.old) (inputs_on (controller_of E.seen self.old) port)) }
        ensures joined { OnOk result (AreJoined E.seen self.new) }
        ensures ports { ports_in E.seen self.new.router ≡ ports_in E.seen self.old.router }
    {
        for place in 0..MOST_LABELS {
            let Some(label) = self.router.label_at(port, place) else {
                return Ok(());
            };
            self.try_label(port, &label, numbers, notes)?;
        }
        Ok(())
    }

    /// Tries to join each label of each port in turn.
    pub(crate) fn try_joins(
        &mut self,
        numbers: &mut Numbers,
        notes: &mut Notes,
    ) -> Result<(), OutOfMemory>
        requires joined { AreJoined E.seen self.old }
        requires can { CanTryJoins (acted E.seen self.old notes.old numbers.old) }
        ensures acted { OnOk result (acted E.seen self.new notes.new numbers.new ≡ tries_joins (acted E.seen self.old notes.old numbers.old)) }
        ensures joined { OnOk result (AreJoined E.seen self.new) }
    {
        for place in 0..self.router.ports() {
            let port = self.router.port_at(place);
            self.try_port(port, numbers, notes)?;
        }
        Ok(())
    }
}
