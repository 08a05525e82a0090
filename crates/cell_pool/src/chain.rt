//! The cells that one channel's reassembly holds.

ghost use Rattle.std.specs.Prelude.{◌≡◌, ◌+◌, ◌<◌, ◌≤◌, ◌↔◌, IsNone, IfNone, IfSome, IsTrue};
ghost use Rattle.cell_pool.specs.Places.{NotIn};
ghost use Rattle.cell_pool.specs.Region.{Region, places, len_of, IsOut, IsLine};
ghost use Rattle.cell_pool.specs.Steps.{IsPushed, IsPopped, IsDrained};

use crate::pool::{Pool, Slot};
use crate::queue::Queue;
use std::marker::Model;

/// The most cells that a chain holds: those of the longest AAL5 frame in use, 1,536 octets.
pub const CHAIN_CELLS: usize = 32;

/// A reassembly buffer (a chain): at most 32 slots of one region, in order, for the cells of one
/// CPCS-PDU (I.363.5). It takes no memory, and it must be drained.
#[must_use]
#[derive(Debug)]
pub struct Chain {
    queue: Queue,
}

impl Model for Chain {
    ghost use Rattle.std.specs.Prelude.{◌≤◌};
    ghost use Rattle.cell_pool.specs.Region.{Line, len_of};

    ghost Value = { Line };

    ghost view = { λ c. c.queue };

    ghost invariant = { λ c. len_of c.queue ≤ 32 };
}

impl Chain {
    /// An empty chain, of any region.
    pub fn new() -> Chain
        ensures empty { len_of result ≡ 0 }
        ensures threaded { (pool : Region) → IsLine pool result }
    {
        Chain {
            queue: Queue::new(),
        }
    }

    /// How many cells the chain has.
    pub fn len(&self) -> usize
        ensures len { result ≡ len_of self.now }
        ensures most { result ≤ 32 }
    {
        self.queue.len()
    }

    /// Whether the chain has no cell.
    pub fn is_empty(&self) -> bool
        ensures { IsTrue result ↔ (len_of self.now ≡ 0) }
    {
        self.queue.is_empty()
    }

    /// Puts the slot at the end.
    pub fn push(&mut self, pool: &mut Pool, slot: Slot)
        requires threaded { IsLine pool.old self.old }
        requires out { IsOut pool.old slot }
        requires fresh { NotIn slot (places pool.old self.old) }
        requires room { len_of self.old < 32 }
        ensures pushed { IsPushed pool.old pool.new self.old self.new slot }
        ensures len { len_of self.new ≡ len_of self.old + 1 }
    {
        self.queue.push(pool, slot);
    }

    /// Takes the first slot out. None exactly where the chain is empty.
    pub fn pop(&mut self, pool: &mut Pool) -> Option<Slot>
        requires { IsLine pool.old self.old }
        ensures region { pool.new ≡ pool.old }
        ensures threaded { IsLine pool.new self.new }
        ensures none { IsNone result ↔ (len_of self.old ≡ 0) }
        ensures none_same { IfNone result (self.new ≡ self.old) }
        ensures some { IfSome result (λ slot. IsPopped pool.old self.old self.new slot) }
    {
        self.queue.pop(pool)
    }

    /// Gives all slots back to the region.
    pub fn drain(self, pool: &mut Pool)
        requires { IsLine pool.old self }
        ensures { IsDrained pool.old pool.new self }
    {
        let Chain { queue } = self;
        queue.drain(pool);
    }
}
