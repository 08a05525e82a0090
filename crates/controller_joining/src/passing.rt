//! What leaves the joins as they are: cells that are gathered, frames that are sent, and a label in use.

ghost use Rattle.std.specs.Prelude.{◌≡◌, ◌≢◌, ◌≤◌, ◌<◌, ◌+◌, ◌^◌, drop, length, slice_get, take, true, IfOk, IfSome, None, OnOk, Some};
ghost use Rattle.std.specs.Option.{option_map};
ghost use Rattle.net_types.specs.declared.node.PortNo.{PortNo as PortValue};
ghost use Rattle.net_types.specs.Number.{GivenOut};
ghost use Rattle.ipv4_packet.specs.Packet.{IsPacket};
ghost use Rattle.ipv4_forward.specs.declared.outcome.Hop.TheVariants.{On};
ghost use Rattle.ipv4_forward.specs.Hop.{hop_of};
ghost use Rattle.crossbar_model.specs.Channels.{IsLinkPort};
ghost use Rattle.link_model.specs.Notes.{Journal};
ghost use Rattle.controller_link.specs.Cells.{is_channel};
ghost use Rattle.port_model.specs.Counting.{used};
ghost use Rattle.controller_router.specs.port_state.Engine.{flow_at};
ghost use Rattle.controller_joins.specs.world_model.Cells.{Taker as TakerValue};
ghost use Rattle.controller_joins.specs.world_model.Controller.{Linked, linked_at};
ghost use Rattle.controller_joins.specs.world_model.Packets.{injected, is_control, forwards_packet};
ghost use Rattle.controller_joins.specs.world_model.Performing.{at_port};
ghost use Rattle.controller_joins.specs.world_model.Sending.{sends};
ghost use Rattle.controller_router.specs.Cells.{IsFound, channel_of, gathered, receipt};
ghost use Rattle.controller_router.specs.Node.{ranges_in};
ghost use Rattle.controller_joining.specs.Joining.{AreJoined, acted, controller_of};

use crate::joining::JoiningRouter;
use atm_cells::Cell;
use controller_link::Taker;
use controller_router::PortEngine;
use link_model::Notes;
use net_types::{Channel, Mark, Numbers, OutOfMemory, PortNo};

impl<E: PortEngine> JoiningRouter<E> {
    /// Takes a cell of a channel. Where it ends a frame that passes its test, the answer is the length
    /// in octets of the frame's payload, which stands at the front of `octets`.
    pub fn receive(
        &mut self,
        taker: Taker,
        cell: &Cell,
        notes: &mut Notes,
        octets: &mut [u8],
    ) -> Result<Option<usize>, OutOfMemory>
        requires joined { AreJoined E.seen self.old }
        requires channel { is_channel (ranges_in E.seen self.old.router) taker ≡ true }
        requires room { 1536 ≤ length octets.old }
        ensures acted { (t : TakerValue) (numbers : GivenOut) → channel_of t ≡ taker → IsFound (controller_of E.seen self.old) t → OnOk result (acted E.seen self.new notes.new numbers ≡ gathered (acted E.seen self.old notes.old numbers) t (receipt (acted E.seen self.old notes.old numbers) t cell.now)) }
        ensures payload { (t : TakerValue) (numbers : GivenOut) → channel_of t ≡ taker → IsFound (controller_of E.seen self.old) t → IfOk result (λ len. option_map (λ n. take n octets.new) len ≡ (receipt (acted E.seen self.old notes.old numbers) t cell.now).payload) }
        ensures len { IfOk result (λ len. IfSome len (λ n. n ≤ 1528)) }
        ensures joined { (t : TakerValue) → channel_of t ≡ taker → IsFound (controller_of E.seen self.old) t → OnOk result (AreJoined E.seen self.new) }
    {
        self.router.receive(taker, cell, notes, octets)
    }

    /// Forwards a packet that came in a frame of this mark.
    pub fn route(
        &mut self,
        came: Mark,
        packet: &[u8],
        numbers: &mut Numbers,
        notes: &mut Notes,
    ) -> Result<(), OutOfMemory>
        requires joined { AreJoined E.seen self.old }
        requires packet { IsPacket packet.now }
        requires frame { came.frame < 2 ^ 63 }
        requires port { (port : PortValue) → hop_of self.old.router.routes.table packet.now ≡ On port → IsLinkPort port }
        requires mark { is_control came ≡ true → numbers.old.controls + 1 < 2 ^ 64 }
        ensures acted { OnOk result (acted E.seen self.new notes.new numbers.new ≡ forwards_packet (acted E.seen self.old notes.old numbers.old) came packet.now) }
        ensures joined { OnOk result (AreJoined E.seen self.new) }
    {
        self.router.route(came, packet, numbers, notes)
    }

    /// Forwards a packet that enters here, under this number.
    pub fn enter(
        &mut self,
        number: u32,
        packet: &[u8],
        notes: &mut Notes,
    ) -> Result<(), OutOfMemory>
        requires joined { AreJoined E.seen self.old }
        requires packet { IsPacket packet.now }
        requires port { (port : PortValue) → hop_of self.old.router.routes.table packet.now ≡ On port → IsLinkPort port }
        ensures acted { (numbers : GivenOut) → OnOk result (acted E.seen self.new notes.new numbers ≡ injected (acted E.seen self.old notes.old numbers) number packet.now) }
        ensures joined { OnOk result (AreJoined E.seen self.new) }
    {
        self.router.enter(number, packet, notes)
    }

    /// A packet has come on the channel of a label of a port, which is bound where the port is linked.
    pub fn use_label(&mut self, port: PortNo, label: u16)
        requires joined { AreJoined E.seen self.old }
        requires bound { (linked : Linked) → linked_at (controller_of E.seen self.old) port ≡ Some linked → flow_at linked.port label ≢ None }
        ensures acted { (notes : Journal) (numbers : GivenOut) → acted E.seen self.new notes numbers ≡ at_port (acted E.seen self.old notes numbers) port (λ setup desk w. used w label) }
        ensures joined { AreJoined E.seen self.new }
    {
        self.router.use_label(port, label);
    }

    /// Sends a frame of 1 to 1528 octets.
    pub fn send(
        &mut self,
        channel: Channel,
        mark: Mark,
        payload: &[u8],
        notes: &mut Notes,
    ) -> Result<(), OutOfMemory>
        requires joined { AreJoined E.seen self.old }
        requires payload { (1 ≤ length payload.now) × (length payload.now ≤ 1528) }
        ensures acted { (numbers : GivenOut) → OnOk result (acted E.seen self.new notes.new numbers ≡ sends (acted E.seen self.old notes.old numbers) channel mark payload.now) }
        ensures joined { OnOk result (AreJoined E.seen self.new) }
    {
        self.router.send(channel, mark, payload, notes)
    }

    /// Takes the first cell that waits for the switch. None exactly where none waits.
    pub fn pop(&mut self) -> Option<Cell>
        ensures first { result ≡ slice_get (controller_of E.seen self.old).queue 0 }
        ensures popped { controller_of E.seen self.new ≡ record (controller_of E.seen self.old) { queue = drop 1 (controller_of E.seen self.old).queue } }
        ensures joined { AreJoined E.seen self.old → AreJoined E.seen self.new }
    {
        self.router.pop()
    }

    /// The cell that waits for the switch at this index, counted from 0. None exactly where none waits
    /// there.
    pub fn cell(&self, index: usize) -> Option<Cell>
        ensures { result ≡ slice_get (controller_of E.seen self.now).queue index }
    {
        self.router.cell(index)
    }

    /// How many cells wait for the switch.
    pub fn queued(&self) -> usize
        ensures { result ≡ length (controller_of E.seen self.now).queue }
    {
        self.router.queued()
    }
}
