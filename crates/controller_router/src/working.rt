//! Rules at a port: its engine does what comes, and what it asks is done.

ghost use Rattle.std.specs.Prelude.{◌≡◌, ◌≢◌, None, OnOk, Some};
ghost use Rattle.ifmp_wire.specs.Message.{InRange};
ghost use Rattle.ipv4_packet.specs.Packet.{IsPacket};
ghost use Rattle.link_model.specs.Notes.{Journal};
ghost use Rattle.net_types.specs.Number.{GivenOut};
ghost use Rattle.port_model.specs.Answers.{done as answer_done};
ghost use Rattle.port_model.specs.Counting.{counts, used};
ghost use Rattle.port_model.specs.Hearing.{hears};
ghost use Rattle.port_model.specs.Ticks as port_ticks;
ghost use Rattle.world_model.specs.Cells.{counted_at};
ghost use Rattle.port_state.specs.Engine.{flow_at};
ghost use Rattle.world_model.specs.Controller.{Linked, linked_at};
ghost use Rattle.world_model.specs.Meeting.{tells_port};
ghost use Rattle.world_model.specs.Performing.{at_port};
ghost use Rattle.world_model.specs.Ticks.{ticks_port, ticks_ports};
ghost use Rattle.controller_router.specs.Conditions.{CanWork, EachCanTick};
ghost use Rattle.controller_router.specs.Engine.{CanBeDone};
ghost use Rattle.controller_router.specs.Node.{acted, controller_of, ports_in};

use crate::engine::PortEngine;
use crate::router::Router;
use branch_desk::BranchDone;
use ifmp_wire::Message;
use link_model::Notes;
use net_types::{Addr, Numbers, OutOfMemory, PortNo};

impl<E: PortEngine> Router<E> {
    /// A tick goes by for a port.
    pub fn tick_port(
        &mut self,
        port: PortNo,
        numbers: &mut Numbers,
        notes: &mut Notes,
    ) -> Result<(), OutOfMemory>
        requires { CanWork (acted E.seen self.old notes.old numbers.old) port port_ticks.ticks }
        ensures acted { OnOk result (acted E.seen self.new notes.new numbers.new ≡ ticks_port (acted E.seen self.old notes.old numbers.old) port) }
        ensures ports { ports_in E.seen self.new ≡ ports_in E.seen self.old }
    {
        let Some(place) = self.place_of(port) else {
            return Ok(());
        };
        let mut actions = self.take_actions();
        self.links[place].on_tick(self.client.requests().desk(), &mut actions)?;
        self.perform_all(port, actions, numbers, notes)
    }

    /// A tick goes by for each port in turn.
    pub fn tick_ports(
        &mut self,
        numbers: &mut Numbers,
        notes: &mut Notes,
    ) -> Result<(), OutOfMemory>
        requires { EachCanTick (acted E.seen self.old notes.old numbers.old) (ports_in E.seen self.old) }
        ensures acted { OnOk result (acted E.seen self.new notes.new numbers.new ≡ ticks_ports (acted E.seen self.old notes.old numbers.old)) }
        ensures ports { ports_in E.seen self.new ≡ ports_in E.seen self.old }
    {
        for place in 0..self.ports() {
            let port = self.port_at(place);
            self.tick_port(port, numbers, notes)?;
        }
        Ok(())
    }

    /// A packet of a port's default channel is counted.
    pub fn count(
        &mut self,
        port: PortNo,
        packet: &[u8],
        numbers: &mut Numbers,
        notes: &mut Notes,
    ) -> Result<(), OutOfMemory>
        requires packet { IsPacket packet.now }
        requires can { CanWork (acted E.seen self.old notes.old numbers.old) port (λ setup desk w. counts setup desk w packet.now) }
        ensures acted { OnOk result (acted E.seen self.new notes.new numbers.new ≡ counted_at (acted E.seen self.old notes.old numbers.old) port packet.now) }
        ensures ports { ports_in E.seen self.new ≡ ports_in E.seen self.old }
    {
        let Some(place) = self.place_of(port) else {
            return Ok(());
        };
        let mut actions = self.take_actions();
        self.links[place].on_packet(packet, self.client.requests().desk(), &mut actions)?;
        self.perform_all(port, actions, numbers, notes)
    }

    /// A message of IFMP comes from the other end of a port's link, in a packet from `source`.
    pub fn hear(
        &mut self,
        port: PortNo,
        source: Addr,
        message: &Message,
        numbers: &mut Numbers,
        notes: &mut Notes,
    ) -> Result<(), OutOfMemory>
        requires message { InRange message.now }
        requires can { CanWork (acted E.seen self.old notes.old numbers.old) port (λ setup desk w. hears setup desk w source message.now) }
        ensures acted { OnOk result (acted E.seen self.new notes.new numbers.new ≡ at_port (acted E.seen self.old notes.old numbers.old) port (λ setup desk w. hears setup desk w source message.now)) }
        ensures ports { ports_in E.seen self.new ≡ ports_in E.seen self.old }
    {
        let Some(place) = self.place_of(port) else {
            return Ok(());
        };
        let mut actions = self.take_actions();
        self.links[place].on_message(source, message, self.client.requests().desk(), &mut actions)?;
        self.perform_all(port, actions, numbers, notes)
    }

    /// A request is done that is on an input of a port, or on the control link with its output at the
    /// port.
    pub fn tell(
        &mut self,
        port: PortNo,
        done: &BranchDone,
        numbers: &mut Numbers,
        notes: &mut Notes,
    ) -> Result<(), OutOfMemory>
        requires done { CanBeDone done.now.request }
        requires can { CanWork (acted E.seen self.old notes.old numbers.old) port (λ setup desk w. answer_done setup w done.now.request) }
        ensures acted { OnOk result (acted E.seen self.new notes.new numbers.new ≡ tells_port (acted E.seen self.old notes.old numbers.old) done.now.request (Some port)) }
        ensures ports { ports_in E.seen self.new ≡ ports_in E.seen self.old }
    {
        let Some(place) = self.place_of(port) else {
            return Ok(());
        };
        let mut actions = self.take_actions();
        self.links[place].on_done(done, &mut actions)?;
        self.perform_all(port, actions, numbers, notes)
    }

    /// A packet has come on the channel of a label of a port, which is bound where the port is linked.
    pub fn use_label(&mut self, port: PortNo, label: u16)
        requires { (linked : Linked) → linked_at (controller_of E.seen self.old) port ≡ Some linked → flow_at linked.port label ≢ None }
        ensures acted { (notes : Journal) (numbers : GivenOut) → acted E.seen self.new notes numbers ≡ at_port (acted E.seen self.old notes numbers) port (λ setup desk w. used w label) }
        ensures ports { ports_in E.seen self.new ≡ ports_in E.seen self.old }
    {
        let Some(place) = self.place_of(port) else {
            return;
        };
        self.links[place].used(label);
    }
}
