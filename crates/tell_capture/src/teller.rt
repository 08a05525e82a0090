//! The teller of a capture.

ghost use Rattle.std.specs.Prelude.{◌≡◌, ◌≤◌, ◌<◌, length, slice_get, true, Some, OnOk};
ghost use Rattle.lab_io.specs.Fault.{count_after};
ghost use Rattle.world_model.specs.Places.{place_node, queue_number};
ghost use Rattle.world_model.specs.Topology.{Topology as Described};
ghost use Rattle.world.specs.Network.{IsNodeIn, no_notes, world_of};
ghost use Rattle.world.specs.Running.{Runs};
ghost use Rattle.telling_model.specs.Passing.{taken_from};
ghost use Rattle.network_run.specs.Coming.{IsComing};
ghost use Rattle.lab_io.specs.Puts.{Puts, StaysWithin, is_failed};
ghost use Rattle.pcapng_blocks.specs.Blocks.{block_octets, file_octets};
ghost use Rattle.frame_packets.specs.Packet.{packet_of};
ghost use Rattle.frame_packets.specs.Taps.{Tap as TapValue, key_of, tap_at};
ghost use Rattle.tell_capture.specs.Capture.{carried, carried_told, cell_told, interface_number, opening_blocks};
ghost use Rattle.tell_capture.specs.Seen.{known_by};

use crate::interface::{interface_number, opening_blocks, queues_of};
use frame_packets::{Queue, TapKey, Taps, packet_block};
use lab_io::{ReportWriter, Sink, Stop};
use link_model::Notes;
use net_types::Place;
use network_run::{Context, Teller};
use std::alloc::Global;
use telling_model::{Ended, Standing};
use topology::Topology;
use world::{NodeController, World};
use world_model::Event;

/// An observer that writes a packet capture in the format pcapng (draft-ietf-opsawg-pcapng): a
/// section with an interface for each queue where the network opens, and a packet for each last
/// cell that an event carries. The cells before it are kept, at most 32 for each queue and channel
/// on which cells were carried.
#[derive(Drop)]
pub struct CaptureTeller {
    alloc: Global,
    /// The queues in the order of their interfaces.
    queues: Vec<Queue>,
    taps: Taps,
    /// The cell that the event that is to come will carry.
    carried: Option<Standing>,
}

impl CaptureTeller {
    /// Nothing was carried yet.
    pub fn new(alloc: Global) -> CaptureTeller {
        CaptureTeller {
            alloc,
            queues: Vec::new(alloc),
            taps: Taps::new(alloc),
            carried: None,
        }
    }

    /// Puts the packet that a last cell ends, of the cells of the tap at this index; the event that carried it
    /// has this number.
    fn put_packet<K: Sink>(
        &self,
        number: u64,
        standing: &Standing,
        place: usize,
        writer: &mut ReportWriter,
        sink: &mut K,
    ) -> Result<(), Stop>
        requires place { place < length self.now.taps }
        ensures put { (tap : TapValue) → slice_get self.now.taps place ≡ Some tap → Puts result writer.old writer.new (K.written sink.old) (K.written sink.new) (block_octets (packet_of (interface_number self.now.queues.items standing.now.place) number standing.now tap)) }
        ensures room { StaysWithin writer.old writer.new }
        ensures faults { K.faults sink.new ≡ count_after (is_failed result) (K.faults sink.old) }
    {
        let interface = interface_number(self.queues.as_slice(), standing.place);
        let tap = self.taps.at(place);
        let block = packet_block(self.alloc, interface, number, standing, tap)?;
        writer.put(block.as_slice(), sink)?;
        Ok(())
    }

    /// A last cell is told with those before it, which stand in the tap at this index.
    fn tell_last<K: Sink>(
        &mut self,
        number: u64,
        standing: &Standing,
        place: usize,
        writer: &mut ReportWriter,
        sink: &mut K,
    ) -> Result<(), Stop>
        requires place { slice_get self.old.taps place ≡ Some (tap_at self.old.taps (key_of standing.now)) }
        ensures put { Puts result writer.old writer.new (K.written sink.old) (K.written sink.new) (cell_told true (known_by self.old) number standing.now self.old.taps).octets }
        ensures state { OnOk result (known_by self.new ≡ (cell_told true (known_by self.old) number standing.now self.old.taps).state) }
        ensures room { StaysWithin writer.old writer.new }
        ensures faults { K.faults sink.new ≡ count_after (is_failed result) (K.faults sink.old) }
    {
        self.put_packet(number, standing, place, writer, sink)?;
        self.taps.clear(TapKey::of(standing));
        Ok(())
    }

    /// A cell that was carried is told.
    fn tell<K: Sink>(
        &mut self,
        number: u64,
        standing: &Standing,
        writer: &mut ReportWriter,
        sink: &mut K,
    ) -> Result<(), Stop>
        ensures put { Puts result writer.old writer.new (K.written sink.old) (K.written sink.new) (carried_told (known_by self.old) number (Some standing.now)).octets }
        ensures state { OnOk result (known_by self.new ≡ (carried_told (known_by self.old) number (Some standing.now)).state) }
        ensures room { StaysWithin writer.old writer.new }
        ensures faults { K.faults sink.new ≡ count_after (is_failed result) (K.faults sink.old) }
    {
        let place = self.taps.join(TapKey::of(standing), &standing.cell)?;
        if !standing.cell.header.last {
            return Ok(());
        }
        self.tell_last(number, standing, place, writer, sink)
    }
}

/// Puts the section and its interfaces.
fn put_opening<C: NodeController, K: Sink>(
    alloc: Global,
    world: &World<C>,
    names: &Topology,
    writer: &mut ReportWriter,
    sink: &mut K,
) -> Result<(), Stop>
    ensures put { Puts result writer.old writer.new (K.written sink.old) (K.written sink.new) (file_octets (opening_blocks names.now world.now.round.items)) }
    ensures room { StaysWithin writer.old writer.new }
    ensures faults { K.faults sink.new ≡ count_after (is_failed result) (K.faults sink.old) }
{
    let blocks = opening_blocks(alloc, world, names)?;
    writer.put(blocks.as_slice(), sink)?;
    Ok(())
}

/// The first cell of a queue.
fn first<C: NodeController>(world: &World<C>, place: Place) -> Option<Standing>
    requires node { IsNodeIn world.now (place_node place) }
    requires port { queue_number place ≤ 9 }
    ensures { (topology : Described) → Runs C.seen topology world.now → result ≡ taken_from (world_of C.seen world.now no_notes) (Some place) }
{
    let cell = world.cell(place, 0)?;
    Some(Standing { place, cell })
}

/// The cell that an event is to carry.
fn carried<C: NodeController>(world: &World<C>, notes: &Notes, event: &Event) -> Option<Standing>
    requires coming { IsComing C.seen world.now notes.now event.now }
    ensures { result ≡ carried (world_of C.seen world.now notes.now) event.now }
{
    match event {
        Event::Carry(place) => first(world, *place),
        _ => None,
    }
}

impl<C: NodeController> Teller<C> for CaptureTeller {
    ghost use Rattle.tell_capture.specs.Capture.{Tapped, capture_tale};
    ghost use Rattle.tell_capture.specs.Seen.{HasSeen, known_by};

    ghost State = { Tapped };

    ghost state = { known_by };

    ghost tale = { capture_tale };

    ghost awaits = { λ t known topology w event. HasSeen t known w event };

    fn passes_over_empty_queues() {}

    fn open<K: Sink>(
        &mut self,
        world: &World<C>,
        names: &Topology,
        writer: &mut ReportWriter,
        sink: &mut K,
    ) -> Result<(), Stop> {
        self.queues = queues_of(self.alloc, world)?;
        self.taps = Taps::new(self.alloc);
        put_opening(self.alloc, world, names, writer, sink)
    }

    fn before(&mut self, world: &World<C>, notes: &Notes, event: &Event) {
        self.carried = carried(world, notes, event);
    }

    fn after<K: Sink>(
        &mut self,
        _context: &Context<'_>,
        _event: &Event,
        world: &World<C>,
        _notes: &Notes,
        writer: &mut ReportWriter,
        sink: &mut K,
    ) -> Result<(), Stop> {
        match self.carried {
            None => Ok(()),
            Some(standing) => self.tell(world.events(), &standing, writer, sink),
        }
    }

    fn end<K: Sink>(
        &mut self,
        _world: &World<C>,
        _names: &Topology,
        _ended: Ended,
        _writer: &mut ReportWriter,
        _sink: &mut K,
    ) -> Result<(), Stop> {
        Ok(())
    }
}
