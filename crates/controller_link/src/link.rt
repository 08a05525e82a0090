//! What a controller keeps in its region of slots.

ghost use Rattle.std.specs.Prelude.{◌≡◌, ◌++◌, ◌≤◌, ◌↔◌, All, drop, length, map, nat_lt, slice_get, take, true, OnOk, IfOk, IfSome, IsTrue};
ghost use Rattle.std.specs.Bool.{OnTrue, OnFalse};
ghost use Rattle.std.specs.Option.{option_map};
ghost use Rattle.cell_pool.specs.Region.{size};
ghost use Rattle.crossbar_model.specs.Channels.{ArePorts};
ghost use Rattle.frame_model.specs.Reassembly.{cut, nothing_taken};
ghost use Rattle.reassembly.specs.Receipt.{received};
ghost use Rattle.controller_link.specs.Cells.{IsRange, free_slots, is_channel, opened, ranges_of, reassembly_of, with_reassembly};

use crate::layout::Layout;
use crate::store::Store;
use crate::taker::Taker;
use atm_cells::Cell;
use cell_pool::Pool;
use frame_model::Queues;
use link_model::Notes;
use net_types::OutOfMemory;
use std::alloc::Global;
use std::marker::Model;
use world_model::PortRange;

/// The controller's end of the control link (RFC 1987): its output queue of cells to its switch,
/// and the reassembly of each channel, in one region of slots. It must be given up by
/// [`ControlLink::abandon`].
#[must_use]
#[derive(Debug)]
pub struct ControlLink {
    layout: Layout,
    store: Store,
}

impl Model for ControlLink {
    ghost use Rattle.controller_link.specs.Cells.{ControlCells};
    ghost use Rattle.controller_link.specs.Link.{AreChannels, cells_in};

    ghost Value = { ControlCells };

    ghost view = { λ l. cells_in l.layout l.store };

    ghost invariant = { λ l. AreChannels l.layout l.store };
}

impl ControlLink {
    /// With these linked ports, ascending, and so many slots: no cell. It takes memory for the slots,
    /// and for each label that the ports may have.
    pub fn open(
        alloc: Global,
        ports: &[PortRange],
        cells: usize,
    ) -> Result<ControlLink, OutOfMemory>
        requires ports { ArePorts (map (λ r. r.port) ports.now) }
        requires ranges { All IsRange ports.now }
        ensures { IfOk result (λ link. link ≡ opened ports.now cells) }
    {
        let layout = Layout::open(alloc, ports)?;
        let store = Store::open(alloc, cells, layout.count())?;
        Ok(ControlLink { layout, store })
    }

    /// Takes a cell of a channel. Where it ends a frame that passes its test, the answer is the length
    /// in octets of the frame's payload, which stands at the front of `octets`.
    pub fn receive(
        &mut self,
        taker: Taker,
        cell: &Cell,
        notes: &mut Notes,
        octets: &mut [u8],
    ) -> Result<Option<usize>, OutOfMemory>
        requires channel { is_channel (ranges_of self.old) taker ≡ true }
        requires room { 1536 ≤ length octets.old }
        ensures ranges { ranges_of self.new ≡ ranges_of self.old }
        ensures cells { OnOk result (self.new ≡ with_reassembly self.old taker (received notes.old (nat_lt 0 (free_slots self.old)) (reassembly_of self.old taker) cell.now).reassembly) }
        ensures notes { OnOk result (notes.new ≡ (received notes.old (nat_lt 0 (free_slots self.old)) (reassembly_of self.old taker) cell.now).notes) }
        ensures payload { IfOk result (λ len. option_map (λ n. take n octets.new) len ≡ (received notes.old (nat_lt 0 (free_slots self.old)) (reassembly_of self.old taker) cell.now).payload) }
        ensures len { IfOk result (λ len. IfSome len (λ n. n ≤ 1528)) }
    {
        let place = self.layout.place_of(taker);
        self.store.receive(place, cell, notes, octets)
    }

    /// Cuts a channel: each mark of its chain gets Cut, once, and its chain and a skipping end.
    pub fn cut(&mut self, taker: Taker, notes: &mut Notes) -> Result<(), OutOfMemory>
        requires { is_channel (ranges_of self.old) taker ≡ true }
        ensures cells { self.new ≡ with_reassembly self.old taker nothing_taken }
        ensures notes { OnOk result (notes.new ≡ cut notes.old (reassembly_of self.old taker)) }
    {
        let place = self.layout.place_of(taker);
        self.store.cut(place, notes)
    }

    /// Takes the first cell that waits for the switch. None exactly where none waits.
    pub fn pop(&mut self) -> Option<Cell>
        ensures first { result ≡ slice_get self.old.queue 0 }
        ensures popped { self.new ≡ record self.old { queue = drop 1 self.old.queue } }
    {
        self.store.pop()
    }

    /// The cell that waits for the switch at this index, counted from 0. None exactly where none waits
    /// there.
    pub fn cell(&self, index: usize) -> Option<Cell>
        ensures { result ≡ slice_get self.now.queue index }
    {
        self.store.cell(index)
    }

    /// How many cells wait for the switch.
    pub fn queued(&self) -> usize
        ensures { result ≡ length self.now.queue }
    {
        self.store.queued()
    }

    /// The linked ports, ascending.
    pub fn ports(&self) -> &[PortRange]
        ensures { result.now ≡ ranges_of self.now }
    {
        self.layout.ports()
    }

    /// How many slots are free.
    pub fn free(&self) -> usize
        ensures { result ≡ free_slots self.now }
    {
        self.store.region().free()
    }

    /// The region of slots.
    pub fn region(&self) -> &Pool
        ensures free { length result.now.free ≡ free_slots self.now }
        ensures cells { size result.now ≡ self.now.cells }
    {
        self.store.region()
    }

    /// Gives up all cells.
    pub fn abandon(self) {
        let ControlLink { layout: _, store } = self;
        store.abandon();
    }
}

impl Queues<()> for ControlLink {
    ghost use Rattle.std.specs.Prelude.{◌++◌};
    ghost use Rattle.controller_link.specs.Cells.{free_slots};

    ghost free = { free_slots };

    ghost with_cells = { λ x _ cells. record x { queue = x.queue ++ cells } };

    ghost has_queue = { λ _ _. Unit {0} };

    fn send(&mut self, _queue: (), cells: &[Cell]) -> bool
        ensures all { IsTrue result ↔ (length cells.now ≤ free_slots self.old) }
        ensures sent { OnTrue result (self.new ≡ record self.old { queue = self.old.queue ++ cells.now }) }
        ensures none { OnFalse result (self.new ≡ self.old) }
    {
        self.store.send(cells)
    }
}
