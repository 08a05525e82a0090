//! Rules at the ports, after which the list is settled.

ghost use Rattle.std.specs.Prelude.{◌≡◌, true, OnOk, Some};
ghost use Rattle.adjacency_table.specs.Side.{is_estab};
ghost use Rattle.ifmp_wire.specs.Message.{InRange};
ghost use Rattle.ipv4_packet.specs.Packet.{IsPacket};
ghost use Rattle.net_types.specs.declared.node.PortNo.{PortNo as PortValue};
ghost use Rattle.port_model.specs.Answers.{done as answer_done};
ghost use Rattle.port_model.specs.Counting.{counts};
ghost use Rattle.port_model.specs.Hearing.{hears};
ghost use Rattle.controller_joins.specs.world_model.Cells.{counted_at};
ghost use Rattle.controller_joins.specs.world_model.Controller.{ports_of};
ghost use Rattle.controller_joins.specs.world_model.Meeting.{causes, empties, request_port};
ghost use Rattle.controller_joins.specs.world_model.Performing.{at_port};
ghost use Rattle.controller_joins.specs.world_model.Resets.{node_resets, node_restarts};
ghost use Rattle.controller_joins.specs.world_model.Ticks.{ticks_ports};
ghost use Rattle.controller_router.specs.Conditions.{CanResetNode};
ghost use Rattle.controller_router.specs.Engine.{CanBeDone};
ghost use Rattle.controller_router.specs.Meeting.{CanCause, CanEmpty};
ghost use Rattle.controller_router.specs.Node.{ports_in};
ghost use Rattle.controller_joining.specs.Conditions.{CanWorkOn, EachCanTickOn, KeepsJoins};
ghost use Rattle.controller_joining.specs.Joining.{AreJoined, acted, controller_of};

use crate::joining::JoiningRouter;
use branch_desk::BranchDone;
use controller_router::PortEngine;
use ifmp_wire::Message;
use link_model::Notes;
use net_types::{Addr, Numbers, OutOfMemory, PortNo};

impl<E: PortEngine> JoiningRouter<E> {
    /// A packet of a port's default channel is counted.
    pub fn count(
        &mut self,
        port: PortNo,
        packet: &[u8],
        numbers: &mut Numbers,
        notes: &mut Notes,
    ) -> Result<(), OutOfMemory>
        requires joined { AreJoined E.seen self.old }
        requires packet { IsPacket packet.now }
        requires can { CanWorkOn (acted E.seen self.old notes.old numbers.old) port (λ setup desk w. counts setup desk w packet.now) }
        ensures acted { OnOk result (acted E.seen self.new notes.new numbers.new ≡ counted_at (acted E.seen self.old notes.old numbers.old) port packet.now) }
        ensures joined { OnOk result (AreJoined E.seen self.new) }
    {
        let stood = self.stands();
        self.router.count(port, packet, numbers, notes)?;
        self.settle(stood);
        Ok(())
    }

    /// A message of IFMP comes from the other end of a port's link, in a packet from `source`.
    pub fn hear(
        &mut self,
        port: PortNo,
        source: Addr,
        message: &Message,
        numbers: &mut Numbers,
        notes: &mut Notes,
    ) -> Result<(), OutOfMemory>
        requires joined { AreJoined E.seen self.old }
        requires message { InRange message.now }
        requires can { CanWorkOn (acted E.seen self.old notes.old numbers.old) port (λ setup desk w. hears setup desk w source message.now) }
        ensures acted { OnOk result (acted E.seen self.new notes.new numbers.new ≡ at_port (acted E.seen self.old notes.old numbers.old) port (λ setup desk w. hears setup desk w source message.now)) }
        ensures joined { OnOk result (AreJoined E.seen self.new) }
    {
        let stood = self.stands();
        self.router.hear(port, source, message, numbers, notes)?;
        self.settle(stood);
        Ok(())
    }

    /// A tick goes by for each port in turn.
    pub(crate) fn tick_ports(
        &mut self,
        numbers: &mut Numbers,
        notes: &mut Notes,
    ) -> Result<(), OutOfMemory>
        requires joined { AreJoined E.seen self.old }
        requires can { EachCanTickOn (acted E.seen self.old notes.old numbers.old) (ports_of (controller_of E.seen self.old)) }
        ensures acted { OnOk result (acted E.seen self.new notes.new numbers.new ≡ ticks_ports (acted E.seen self.old notes.old numbers.old)) }
        ensures joined { OnOk result (AreJoined E.seen self.new) }
    {
        let stood = self.stands();
        self.router.tick_ports(numbers, notes)?;
        self.settle(stood);
        Ok(())
    }

    /// What an answer causes: nothing where a release has reset the node.
    pub(crate) fn cause(
        &mut self,
        done: &BranchDone,
        numbers: &mut Numbers,
        notes: &mut Notes,
    ) -> Result<(), OutOfMemory>
        requires joined { AreJoined E.seen self.old }
        requires done { CanBeDone done.now.request }
        requires can { is_estab self.old.router.client.adjacency.state ≡ true → CanCause (acted E.seen self.old notes.old numbers.old) done.now.request }
        requires keeps { (port : PortValue) → request_port done.now.request ≡ Some port → KeepsJoins (acted E.seen self.old notes.old numbers.old) port (λ setup desk w. answer_done setup w done.now.request) }
        ensures acted { OnOk result (acted E.seen self.new notes.new numbers.new ≡ causes (acted E.seen self.old notes.old numbers.old) done.now.request) }
        ensures joined { OnOk result (AreJoined E.seen self.new) }
    {
        let stood = self.stands();
        self.router.cause(done, numbers, notes)?;
        self.settle(stood);
        Ok(())
    }

    /// Delete All of port 0 and of each linked port that is up is asked.
    pub(crate) fn empty_switch(
        &mut self,
        numbers: &mut Numbers,
        notes: &mut Notes,
    ) -> Result<(), OutOfMemory>
        requires joined { AreJoined E.seen self.old }
        requires can { CanEmpty (acted E.seen self.old notes.old numbers.old) }
        ensures acted { OnOk result (acted E.seen self.new notes.new numbers.new ≡ empties (acted E.seen self.old notes.old numbers.old)) }
        ensures joined { OnOk result (AreJoined E.seen self.new) }
    {
        let stood = self.stands();
        self.router.empty_switch(numbers, notes)?;
        self.settle(stood);
        Ok(())
    }

    /// Resets the node: no join is left.
    pub(crate) fn reset_node(
        &mut self,
        numbers: &mut Numbers,
        notes: &mut Notes,
    ) -> Result<(), OutOfMemory>
        requires can { CanResetNode (acted E.seen self.old notes.old numbers.old) }
        ensures acted { OnOk result (acted E.seen self.new notes.new numbers.new ≡ node_resets (acted E.seen self.old notes.old numbers.old)) }
        ensures joined { OnOk result (AreJoined E.seen self.new) }
        ensures ports { ports_in E.seen self.new.router ≡ ports_of (controller_of E.seen self.old) }
    {
        let _stood = self.stands();
        self.router.reset_node(numbers, notes)?;
        self.joins.clear();
        Ok(())
    }

    /// Restarts the node: beside its reset, all other chains are cut too.
    pub fn restart_node(
        &mut self,
        numbers: &mut Numbers,
        notes: &mut Notes,
    ) -> Result<(), OutOfMemory>
        requires can { CanResetNode (acted E.seen self.old notes.old numbers.old) }
        ensures acted { OnOk result (acted E.seen self.new notes.new numbers.new ≡ node_restarts (acted E.seen self.old notes.old numbers.old)) }
        ensures joined { OnOk result (AreJoined E.seen self.new) }
    {
        self.reset_node(numbers, notes)?;
        self.router.cut_others(notes)
    }
}
