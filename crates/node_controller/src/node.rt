//! What a network asks of the controllers of its nodes.

use atm_cells::Cell;
use ipv4_forward::{RouteChange, Table};
use ipv4_packet::PacketFault;
use link_model::Notes;
use net_types::{Addr, Channel, Mark, NodeId, Numbers, OutOfMemory};
use port_model::Timers;
use std::alloc::Global;
use world_model::PortRange;

/// An error of [`NodeController::inject`]: why a packet doesn't enter the network.
#[derive(Clone, Copy, Debug, PartialEq, Eq)]
pub enum InjectFault {
    /// It is no packet.
    Packet(PacketFault),
    /// Its protocol is that of IFMP, which no sender may use.
    ControlProtocol,
    /// No memory was there.
    OutOfMemory(OutOfMemory),
}

/// The configuration of a node's controller (its setup), as its topology describes it. This project's
/// own.
#[derive(Clone, Copy, Debug)]
pub struct NodeSetup<'a> {
    /// The node.
    pub node: NodeId,
    /// Its address.
    pub address: Addr,
    /// The linked ports, ascending, with the ranges of their labels.
    pub ports: &'a [PortRange],
    /// The number of slots of its region, 1 to 16,384.
    pub cells: usize,
    /// The times of its ports.
    pub timers: Timers,
}

/// The controller of an IP switch: a router that drives the node's switch (RFC 1987). Each call is
/// a rule of `world_model`. Want of memory ends it: each further call that may take memory answers so,
/// and it can only be given up. A call that ends well leaves it able to go on.
pub trait NodeController {
    ghost use Rattle.std.specs.Prelude.{◌≡◌, ◌≤◌, ◌<◌, ◌+◌, ◌^◌, ◌↔◌, ℕ, Bool, false, drop, length, map, slice_get, All, IfOk, IsSome, OnOk, None, Some};
    ghost use Rattle.std.specs.Option.{option_map_or};
    ghost use Rattle.std.specs.Result.{result_err};
    ghost use Rattle.net_types.specs.Number.{AreDrawn, GivenOut, HasNumbersLeft};
    ghost use Rattle.link_model.specs.declared.record.Refusal.{Refusal as RefusalValue};
    ghost use Rattle.crossbar_model.specs.Channels.{ArePorts};
    ghost use Rattle.port_model.specs.Setup.{Policy as Rule};
    ghost use Rattle.world_model.specs.Controller.{Controller, redirects_of};
    ghost use Rattle.world_model.specs.Opening.{after_opening, opened};
    ghost use Rattle.world_model.specs.Cells.{cell_comes};
    ghost use Rattle.world_model.specs.Packets.{inject_refusal, injected};
    ghost use Rattle.world_model.specs.Ticks.{ticks};
    ghost use Rattle.world_model.specs.Resets.{node_restarts};
    ghost use Rattle.world_model.specs.Changes.{change_comes};
    ghost use Rattle.world_model.specs.Sending.{sends};
    ghost use Rattle.node_controller.specs.Nodes.{AreRoutesOf, AreTimes, Ends, IsLabelRange, NamesLinked, acted, changes_of, popped, refusal_of, table_to_be};
    ghost use Rattle.ipv4_forward.specs.Change.{change_fault};

    /// The policy of the node: which flows are offered a label, and which keep it.
    type Policy: Copy;

    // The controller as plain data, whether want of memory ended it, and what a policy does.
    ghost seen: { Self → Controller };

    ghost failed: { Self → Bool };

    ghost meaning: { Self.Policy → Rule };

    /// A controller before its first input. Each port that `table` names is one of the setup's.
    fn open(
        alloc: Global,
        setup: &NodeSetup<'_>,
        table: Table,
        policy: Self::Policy,
        numbers: &mut Numbers,
    ) -> Result<Self, OutOfMemory>
        requires ports { ArePorts (map (λ range. range.port) setup.now.ports.now) }
        requires ranges { All IsLabelRange setup.now.ports.now }
        requires cells { (1 ≤ setup.now.cells) × (setup.now.cells ≤ 16384) }
        requires timers { AreTimes setup.now.timers }
        requires table { AreRoutesOf table setup.now.ports.now }
        requires numbers { HasNumbersLeft numbers.old }
        ensures controller { IfOk result (λ c. seen c ≡ opened setup.now.node setup.now.address table setup.now.ports.now setup.now.cells setup.now.timers (meaning policy) numbers.old) }
        ensures able { IfOk result (λ c. failed c ≡ false) }
        ensures numbers { OnOk result (numbers.new ≡ after_opening setup.now.ports.now numbers.old) };

    /// Takes a cell that comes from the switch.
    fn receive(
        &mut self,
        cell: &Cell,
        numbers: &mut Numbers,
        notes: &mut Notes,
    ) -> Result<(), OutOfMemory>
        requires frame { cell.now.mark.frame < 2 ^ 63 }
        requires numbers { HasNumbersLeft numbers.old }
        ensures acted { OnOk result (acted (seen self.new) notes.new numbers.new ≡ cell_comes (acted (seen self.old) notes.old numbers.old) cell.now) }
        ensures drawn { OnOk result (AreDrawn numbers.old numbers.new) }
        ensures ends { Ends (failed self.old) (failed self.new) result };

    /// A packet enters the network here, under this number. Refuses what is no packet, and then IFMP's
    /// protocol; neither refusal changes anything.
    fn inject(&mut self, number: u32, packet: &[u8], notes: &mut Notes) -> Result<(), InjectFault>
        ensures acted { (numbers : GivenOut) → OnOk result (acted (seen self.new) notes.new numbers ≡ injected (acted (seen self.old) notes.old numbers) number packet.now) }
        ensures refused { (name : RefusalValue) → inject_refusal packet.now ≡ Some name ↔ (option_map_or refusal_of (result_err result) None ≡ Some name) }
        ensures same { IsSome (inject_refusal packet.now) → (self.new ≡ self.old) × (notes.new ≡ notes.old) }
        ensures ends { inject_refusal packet.now ≡ None → Ends (failed self.old) (failed self.new) result };

    /// A tick goes by.
    fn tick(&mut self, numbers: &mut Numbers, notes: &mut Notes) -> Result<(), OutOfMemory>
        requires numbers { HasNumbersLeft numbers.old }
        ensures acted { OnOk result (acted (seen self.new) notes.new numbers.new ≡ ticks (acted (seen self.old) notes.old numbers.old)) }
        ensures drawn { OnOk result (AreDrawn numbers.old numbers.new) }
        ensures ends { Ends (failed self.old) (failed self.new) result };

    /// Starts anew. The cells that wait for the switch stay.
    fn restart(&mut self, numbers: &mut Numbers, notes: &mut Notes) -> Result<(), OutOfMemory>
        requires numbers { HasNumbersLeft numbers.old }
        ensures acted { OnOk result (acted (seen self.new) notes.new numbers.new ≡ node_restarts (acted (seen self.old) notes.old numbers.old)) }
        ensures drawn { OnOk result (AreDrawn numbers.old numbers.new) }
        ensures ends { Ends (failed self.old) (failed self.new) result };

    /// A change of a route comes, which the table accepts after all that wait. A port that it names is
    /// linked.
    fn change(
        &mut self,
        change: &RouteChange,
        numbers: &mut Numbers,
        notes: &mut Notes,
    ) -> Result<(), OutOfMemory>
        requires accepted { change_fault (table_to_be (seen self.old)) change.now ≡ None }
        requires port { NamesLinked (seen self.old) change.now }
        requires count { changes_of (seen self.old) + 1 < 2 ^ 32 }
        requires numbers { HasNumbersLeft numbers.old }
        ensures acted { OnOk result (acted (seen self.new) notes.new numbers.new ≡ change_comes (acted (seen self.old) notes.old numbers.old) change.now) }
        ensures drawn { OnOk result (AreDrawn numbers.old numbers.new) }
        ensures ends { Ends (failed self.old) (failed self.new) result };

    /// Puts the cells of a frame of 1 to 1528 octets at the end of the queue to the switch: whole, or not
    /// at all with the entry PoolFull.
    fn forge(
        &mut self,
        channel: Channel,
        payload: &[u8],
        mark: Mark,
        notes: &mut Notes,
    ) -> Result<(), OutOfMemory>
        requires channel { channel.vpi ≤ 255 }
        requires payload { (1 ≤ length payload.now) × (length payload.now ≤ 1528) }
        ensures acted { (numbers : GivenOut) → OnOk result (acted (seen self.new) notes.new numbers ≡ sends (acted (seen self.old) notes.old numbers) channel mark payload.now) }
        ensures ends { Ends (failed self.old) (failed self.new) result };

    /// Takes the first cell that waits for the switch. None exactly where none waits.
    fn pop(&mut self) -> Option<Cell>
        ensures first { result ≡ slice_get (seen self.old).queue 0 }
        ensures popped { seen self.new ≡ popped (seen self.old) }
        ensures able { failed self.new ≡ failed self.old };

    /// The cell that waits for the switch at this index, counted from 0. None exactly where none waits
    /// there.
    fn cell(&self, index: usize) -> Option<Cell>
        ensures { result ≡ slice_get (seen self.now).queue index };

    /// How many cells wait for the switch.
    fn queued(&self) -> usize
        ensures { result ≡ length (seen self.now).queue };

    /// How many REDIRECTs its ports accepted since the opening; once at its type's end it stays there.
    fn redirects(&self) -> u64
        ensures { result ≡ redirects_of (seen self.now) };

    /// Gives up all cells, labels, grants and requests.
    fn abandon(self);
}
