//! The region, and the slots that are taken from it.

ghost use Rattle.std.specs.Prelude.{◌≡◌, [], ◌∷◌, ◌++◌, ◌+◌, ◌<◌, ◌≤◌, ◌^◌, ◌↔◌, length, IsNone, IfNone, IfSome, IfOk, slice_set, slice_index};
ghost use Rattle.std.specs.Vec.{vec_capacity, vec_len};
ghost use Rattle.cell_pool.specs.Region.{size as slots, cell_at, slots_out, IsOut};
ghost use Rattle.cell_pool.specs.Steps.{IsTaken, IsPut, with_channel};

use atm_cells::{Cell, Header};
use net_types::{Channel, OutOfMemory};
use std::alloc::Global;
use std::marker::Model;

/// A cell buffer that was taken from the shared memory of a node (a slot of its region). This
/// project's own. It must be spent: by [`Pool::put`], or by a push to a queue or chain.
#[must_use]
#[derive(Debug)]
pub struct Slot {
    place: usize,
}

impl Model for Slot {
    ghost use Rattle.std.specs.Prelude.{ℕ};

    ghost Value = { ℕ };

    ghost view = { λ s. s.place };
}

impl Slot {
    /// The slot of an index that is out.
    pub(crate) fn of_place(place: usize) -> Slot
        ensures { result ≡ place }
    {
        Slot { place }
    }

    /// The index, where the slot ends.
    pub(crate) fn into_place(self) -> usize
        ensures { result ≡ self }
    {
        let Slot { place } = self;
        place
    }
}

/// Puts a value at the end of a list that has room for it.
fn push<T: Drop>(list: &mut Vec<T>, value: T)
    requires { vec_len list.old < vec_capacity list.old }
    ensures items { list.new.items ≡ list.old.items ++ value ∷ [] }
    ensures room { vec_capacity list.old ≤ vec_capacity list.new }
{
    let Ok(()) = list.push(value) else {
        unreachable!()
    };
}

/// Begins a slot, for which the lists have room. It isn't inlined, since each slot begins once.
#[inline(never)]
fn begin(cells: &mut Vec<Cell>, next: &mut Vec<usize>, back: &mut Vec<usize>, cell: Cell)
    requires cells_room { vec_len cells.old < vec_capacity cells.old }
    requires next_room { vec_len next.old < vec_capacity next.old }
    requires back_room { vec_len back.old < vec_capacity back.old }
    ensures cells { cells.new.items ≡ cells.old.items ++ cell ∷ [] }
    ensures next { next.new.items ≡ next.old.items ++ 0 ∷ [] }
    ensures back { back.new.items ≡ back.old.items ++ 0 ∷ [] }
    ensures cells_room { vec_capacity cells.old ≤ vec_capacity cells.new }
    ensures next_room { vec_capacity next.old ≤ vec_capacity next.new }
    ensures back_room { vec_capacity back.old ≤ vec_capacity back.new }
{
    push(cells, cell);
    push(next, 0);
    push(back, 0);
}

/// The cell with another channel.
fn with_channel(cell: &Cell, channel: Channel) -> Cell
    ensures { result ≡ with_channel cell.now channel }
{
    let header = Header {
        channel,
        last: cell.header.last,
    };
    Cell { header, ..*cell }
}

/// A shared cell buffer memory (a region of slots), with room for one cell in each slot. Memory for
/// all of them is reserved at opening, and that of a slot is first written when the slot is first
/// taken: slots are taken in turn, and one that was put back before a new one. This project's own.
#[derive(Debug, Drop)]
pub struct Pool {
    /// How many slots the region has.
    size: usize,
    /// The cell in each slot that was ever taken.
    cells: Vec<Cell>,
    /// The slot to which each of these leads, in the free list or in a queue.
    next: Vec<usize>,
    /// The slot to which each of these leads back in a queue, where it isn't the first there: the one
    /// before it.
    back: Vec<usize>,
    /// The slot that was put back last of those in the free list, where there is one.
    head: usize,
    /// How many slots are in the free list.
    returned: usize,
}

impl Model for Pool {
    ghost use Rattle.cell_pool.specs.Region.{Region, blank, walk};
    ghost use Rattle.cell_pool.specs.Places.{Distinct, Below};
    ghost use Rattle.cell_pool.specs.Room.{filled, never_taken};
    ghost use Rattle.std.specs.Prelude.{◌≡◌, ◌≤◌, ◌++◌, length};
    ghost use Rattle.std.specs.Vec.{vec_capacity};

    ghost Value = { Region };

    ghost view = { λ p. record {
      free = walk p.next.items p.head p.returned ++ never_taken p.size (length p.cells.items);
      cells = filled p.size blank p.cells.items;
      next = filled p.size 0 p.next.items;
      back = filled p.size 0 p.back.items;
    } };

    ghost invariant = { λ p. record {
      within : length p.cells.items ≤ p.size;
      as_long : length p.next.items ≡ length p.cells.items;
      back_as_long : length p.back.items ≡ length p.cells.items;
      cells_room : p.size ≤ vec_capacity p.cells;
      next_room : p.size ≤ vec_capacity p.next;
      back_room : p.size ≤ vec_capacity p.back;
      distinct : Distinct (walk p.next.items p.head p.returned);
      below : Below (length p.cells.items) (walk p.next.items p.head p.returned);
    } };
}

impl Pool {
    /// A region of `n` slots, all of them free.
    pub fn open(alloc: Global, n: usize) -> Result<Pool, OutOfMemory>
        ensures size { IfOk result (λ p. slots p ≡ n) }
        ensures free { IfOk result (λ p. length p.free ≡ n) }
    {
        Ok(Pool {
            size: n,
            cells: Vec::with_capacity(alloc, n)?,
            next: Vec::with_capacity(alloc, n)?,
            back: Vec::with_capacity(alloc, n)?,
            head: 0,
            returned: 0,
        })
    }

    /// How many slots are free.
    pub fn free(&self) -> usize
        ensures free { result ≡ length self.now.free }

        // The others were taken and not put back.
        ensures others_out { result + slots_out self.now ≡ slots self.now }
    {
        self.returned + (self.size - self.cells.len())
    }

    /// Takes a free slot and puts the cell into it. None exactly where no slot is free.
    pub fn take(&mut self, cell: &Cell) -> Option<Slot>
        ensures none { IsNone result ↔ (self.old.free ≡ []) }
        ensures none_same { IfNone result (self.new ≡ self.old) }
        ensures some { IfSome result (λ slot. IsTaken self.old self.new slot cell.now) }
    {
        if self.free() == 0 {
            return None;
        }
        Some(self.fill(cell.header.channel, cell))
    }

    /// Takes a free slot, of which there is one, and puts the cell into it, with this channel in place
    /// of its own.
    pub fn fill(&mut self, channel: Channel, cell: &Cell) -> Slot
        requires { 0 < length self.old.free }
        ensures { IsTaken self.old self.new result (with_channel cell.now channel) }
    {
        if self.returned > 0 {
            let place = self.head;
            self.head = self.next[place];
            self.returned -= 1;
            self.cells[place] = with_channel(cell, channel);
            return Slot { place };
        }
        let place = self.cells.len();
        begin(
            &mut self.cells,
            &mut self.next,
            &mut self.back,
            with_channel(cell, channel),
        );
        Slot { place }
    }

    /// The cell that was put into the slot.
    pub fn read(&self, slot: &Slot) -> Cell
        requires { IsOut self.now slot.now }
        ensures { result ≡ cell_at self.now slot.now }
    {
        self.cells[slot.place]
    }

    /// Gives the slot back.
    pub fn put(&mut self, slot: Slot)
        requires { IsOut self.old slot }
        ensures { IsPut self.old self.new slot }
    {
        let Slot { place } = slot;
        self.next[place] = self.head;
        self.head = place;
        self.returned += 1;
    }

    /// Lets the slot `from` lead to the slot `to`, and `to` lead back to `from`.
    pub(crate) fn link(&mut self, from: usize, to: usize)
        requires from { IsOut self.old from }
        requires to { IsOut self.old to }
        ensures free { self.new.free ≡ self.old.free }
        ensures cells { self.new.cells ≡ self.old.cells }
        ensures next { self.new.next ≡ slice_set self.old.next from to }
        ensures back { self.new.back ≡ slice_set self.old.back to from }

        // What a caller that doesn't open the region needs besides.
        ensures even { length self.old.next ≡ slots self.old }
        ensures back_even { length self.old.back ≡ slots self.old }
        ensures bound { slots self.old < 2 ^ 64 }
    {
        self.next[from] = to;
        self.back[to] = from;
    }

    /// The slot to which the slot `from` leads.
    pub(crate) fn after(&self, from: usize) -> usize
        requires { IsOut self.now from }
        ensures { result ≡ slice_index self.now.next from }
    {
        self.next[from]
    }

    /// The slot to which the slot `from` leads back.
    pub(crate) fn before(&self, from: usize) -> usize
        requires { IsOut self.now from }
        ensures { result ≡ slice_index self.now.back from }
    {
        self.back[from]
    }

    /// The cell in a slot.
    pub(crate) fn cell(&self, place: usize) -> Cell
        requires { IsOut self.now place }
        ensures { result ≡ cell_at self.now place }
    {
        self.cells[place]
    }

    /// How many slots it has.
    pub fn size(&self) -> usize
        ensures { result ≡ slots self.now }
    {
        self.size
    }
}
