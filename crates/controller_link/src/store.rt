//! A region of slots, with a queue and chains in it.

ghost use Rattle.std.specs.Prelude.{◌≡◌, [], ◌∷◌, ◌++◌, ◌+◌, ◌<◌, ◌≤◌, ◌↔◌, drop, length, nat_lt, replicate, slice_get, slice_index_or, slice_set, take, OnOk, IfOk, IfSome, IsTrue};
ghost use Rattle.std.specs.Bool.{OnTrue, OnFalse};
ghost use Rattle.std.specs.Option.{option_map};
ghost use Rattle.cell_pool.specs.Region.{size};
ghost use Rattle.frame_model.specs.Reassembly.{cut, nothing_taken};
ghost use Rattle.reassembly.specs.Receipt.{received};
ghost use Rattle.controller_link.specs.Store.{free_in, reassembly_at, with_chain};

use atm_cells::Cell;
use cell_pool::{Pool, Queue};
use link_model::Notes;
use net_types::OutOfMemory;
use reassembly::Reassembly;
use std::alloc::Global;
use std::marker::Model;

/// A queue and reassemblies, each at its index, in one region of slots.
#[must_use]
#[derive(Debug)]
pub(crate) struct Store {
    pool: Pool,
    queue: Queue,
    chains: Vec<Reassembly>,
}

impl Model for Store {
    ghost use Rattle.controller_link.specs.Store.{AreOneRegion, Stored, stored};

    ghost Value = { Stored };

    ghost view = { λ s. stored s.pool s.queue s.chains.items };

    ghost invariant = { λ s. AreOneRegion s.pool s.queue s.chains.items };
}

impl Store {
    /// With so many slots and so many reassemblies: no cell.
    pub(crate) fn open(alloc: Global, cells: usize, count: usize) -> Result<Store, OutOfMemory>
        ensures { IfOk result (λ s. s ≡ record { cells = cells; queue = []; chains = replicate count nothing_taken }) }
    {
        let pool = Pool::open(alloc, cells)?;
        let mut chains = Vec::with_capacity(alloc, count)?;
        while chains.len() < count {
            let pushed = chains.push(Reassembly::new());
            let Ok(()) = pushed else { unreachable!() };
        }
        let queue = Queue::new();
        Ok(Store {
            pool,
            queue,
            chains,
        })
    }

    /// Takes a cell of the channel at this index. Where it ends a frame that passes its test, the
    /// answer is the length in octets of the frame's payload, which stands at the front of `octets`.
    pub(crate) fn receive(
        &mut self,
        place: usize,
        cell: &Cell,
        notes: &mut Notes,
        octets: &mut [u8],
    ) -> Result<Option<usize>, OutOfMemory>
        requires place { place < length self.old.chains }
        requires room { 1536 ≤ length octets.old }
        ensures count { length self.new.chains ≡ length self.old.chains }
        ensures store { OnOk result (self.new ≡ with_chain self.old place (received notes.old (nat_lt 0 (free_in self.old)) (reassembly_at self.old place) cell.now).reassembly) }
        ensures notes { OnOk result (notes.new ≡ (received notes.old (nat_lt 0 (free_in self.old)) (reassembly_at self.old place) cell.now).notes) }
        ensures payload { IfOk result (λ len. option_map (λ n. take n octets.new) len ≡ (received notes.old (nat_lt 0 (free_in self.old)) (reassembly_at self.old place) cell.now).payload) }
        ensures len { IfOk result (λ len. IfSome len (λ n. n ≤ 1528)) }
    {
        let chain = &mut self.chains[place];
        chain.receive(&mut self.pool, cell, notes, octets)
    }

    /// Cuts the channel at this index.
    pub(crate) fn cut(&mut self, place: usize, notes: &mut Notes) -> Result<(), OutOfMemory>
        requires { place < length self.old.chains }
        ensures store { self.new ≡ with_chain self.old place nothing_taken }
        ensures notes { OnOk result (notes.new ≡ cut notes.old (reassembly_at self.old place)) }
    {
        let chain = &mut self.chains[place];
        chain.cut(&mut self.pool, notes)
    }

    /// Puts the cells at the end of the queue, or none of them. False exactly where fewer slots are
    /// free than cells.
    pub(crate) fn send(&mut self, cells: &[Cell]) -> bool
        ensures all { IsTrue result ↔ (length cells.now ≤ free_in self.old) }
        ensures sent { OnTrue result (self.new ≡ record self.old { queue = self.old.queue ++ cells.now }) }
        ensures none { OnFalse result (self.new ≡ self.old) }
    {
        if self.pool.free() < cells.len() {
            return false;
        }
        for cell in cells {
            self.push(cell);
        }
        true
    }

    /// Puts a cell at the end of the queue.
    fn push(&mut self, cell: &Cell)
        requires { 0 < free_in self.old }
        ensures queue { self.new ≡ record self.old { queue = self.old.queue ++ cell.now ∷ [] } }
        ensures free { free_in self.new + 1 ≡ free_in self.old }
    {
        let Some(slot) = self.pool.take(cell) else {
            unreachable!()
        };
        self.queue.push(&mut self.pool, slot);
    }

    /// Takes the first cell of the queue. None exactly where it has none.
    pub(crate) fn pop(&mut self) -> Option<Cell>
        ensures first { result ≡ slice_get self.old.queue 0 }
        ensures popped { self.new ≡ record self.old { queue = drop 1 self.old.queue } }
    {
        let slot = self.queue.pop(&mut self.pool)?;
        let cell = self.pool.read(&slot);
        self.pool.put(slot);
        Some(cell)
    }

    /// The cell at this index of the queue, counted from 0. None exactly where it has none there.
    pub(crate) fn cell(&self, index: usize) -> Option<Cell>
        ensures { result ≡ slice_get self.now.queue index }
    {
        self.queue.at(&self.pool, index)
    }

    /// How many cells the queue has.
    pub(crate) fn queued(&self) -> usize
        ensures { result ≡ length self.now.queue }
    {
        self.queue.len()
    }

    /// The region.
    pub(crate) fn region(&self) -> &Pool
        ensures free { length result.now.free ≡ free_in self.now }
        ensures cells { size result.now ≡ self.now.cells }
    {
        &self.pool
    }

    /// Gives up all cells.
    pub(crate) fn abandon(self) {
        let Store {
            mut pool,
            queue,
            mut chains,
        } = self;
        while let Some(chain) = chains.pop() {
            chain.abandon(&mut pool);
        }
        chains.destroy_empty();
        queue.drain(&mut pool);
    }
}
