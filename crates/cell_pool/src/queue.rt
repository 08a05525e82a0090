//! A queue of slots, threaded through its region.

ghost use Rattle.std.specs.Prelude.{◌≡◌, ◌+◌, ◌<◌, ◌↔◌, slice_get, slice_index, IsTrue, IsNone, IfNone, IfSome};
ghost use Rattle.cell_pool.specs.Places.{NotIn};
ghost use Rattle.cell_pool.specs.Region.{Region, places, cells_of, len_of, IsOut, IsLine};
ghost use Rattle.cell_pool.specs.Steps.{IsPushed, IsPopped, IsDrained};

use crate::pool::{Pool, Slot};
use atm_cells::Cell;
use std::marker::Model;

/// A first-in, first-out queue of cells, as slots of one region. It takes no memory, and it must be
/// drained. This project's own.
#[must_use]
#[derive(Debug)]
pub struct Queue {
    /// The first slot, where there is one; each leads to the next in the region.
    head: usize,
    /// The last slot, where there is one.
    tail: usize,
    /// How many slots the queue has.
    len: usize,
}

impl Model for Queue {
    ghost use Rattle.cell_pool.specs.Region.{Line};

    ghost Value = { Line };

    ghost view = { λ q. record { head = q.head; tail = q.tail; len = q.len } };
}

impl Queue {
    /// An empty queue, of any region.
    pub fn new() -> Queue
        ensures empty { len_of result ≡ 0 }
        ensures threaded { (pool : Region) → IsLine pool result }
    {
        Queue {
            head: 0,
            tail: 0,
            len: 0,
        }
    }

    /// How many cells the queue has.
    pub fn len(&self) -> usize
        ensures { result ≡ len_of self.now }
    {
        self.len
    }

    /// Whether the queue has no cell.
    pub fn is_empty(&self) -> bool
        ensures { IsTrue result ↔ (len_of self.now ≡ 0) }
    {
        self.len == 0
    }

    /// The cell at an index, counted from the front from 0 on. None exactly where the queue has no more
    /// cells than that. It walks there from the nearer end.
    pub fn at(&self, pool: &Pool, index: usize) -> Option<Cell>
        requires { IsLine pool.now self.now }
        ensures { result ≡ slice_get (cells_of pool.now self.now) index }
    {
        if index >= self.len {
            return None;
        }
        let place = if index < self.len - index {
            self.place_from_front(pool, index)
        } else {
            self.place_from_end(pool, index)
        };
        Some(pool.cell(place))
    }

    /// The slot at an index, by the slots before it.
    fn place_from_front(&self, pool: &Pool, index: usize) -> usize
        requires line { IsLine pool.now self.now }
        requires within { index < len_of self.now }
        ensures { result ≡ slice_index (places pool.now self.now) index }
    {
        let mut place = self.head;
        for _step in 0..index {
            place = pool.after(place);
        }
        place
    }

    /// The slot at an index, by the slots behind it.
    fn place_from_end(&self, pool: &Pool, index: usize) -> usize
        requires line { IsLine pool.now self.now }
        requires within { index < len_of self.now }
        ensures { result ≡ slice_index (places pool.now self.now) index }
    {
        let mut place = self.tail;
        for _step in index + 1..self.len {
            place = pool.before(place);
        }
        place
    }

    /// Puts the slot at the end.
    pub fn push(&mut self, pool: &mut Pool, slot: Slot)
        requires threaded { IsLine pool.old self.old }
        requires out { IsOut pool.old slot }
        requires fresh { NotIn slot (places pool.old self.old) }
        ensures pushed { IsPushed pool.old pool.new self.old self.new slot }
        ensures len { len_of self.new ≡ len_of self.old + 1 }
    {
        let place = slot.into_place();
        if self.len == 0 {
            self.head = place;
        } else {
            pool.link(self.tail, place);
        }
        self.tail = place;
        self.len += 1;
    }

    /// Takes the first slot out. None exactly where the queue is empty.
    pub fn pop(&mut self, pool: &mut Pool) -> Option<Slot>
        requires { IsLine pool.old self.old }
        ensures region { pool.new ≡ pool.old }
        ensures threaded { IsLine pool.new self.new }
        ensures none { IsNone result ↔ (len_of self.old ≡ 0) }
        ensures none_same { IfNone result (self.new ≡ self.old) }
        ensures some { IfSome result (λ slot. IsPopped pool.old self.old self.new slot) }
    {
        if self.len == 0 {
            return None;
        }
        let place = self.head;
        self.head = pool.after(place);
        self.len -= 1;
        Some(Slot::of_place(place))
    }

    /// Gives all slots back to the region.
    pub fn drain(mut self, pool: &mut Pool)
        requires { IsLine pool.old self }
        ensures { IsDrained pool.old pool.new self }
    {
        while let Some(slot) = self.pop(pool) {
            pool.put(slot);
        }
        let Queue {
            head: _,
            tail: _,
            len: _,
        } = self;
    }
}
