//! The cells of a channel of a queue.

ghost use Rattle.std.specs.Prelude.{◌≡◌, ◌≤◌, length};
ghost use Rattle.frame_packets.specs.Taps.{no_cells, with_cell};

use crate::queue::TapKey;
use aal5_frames::MOST_CELLS;
use atm_cells::{BLANK_CELL, Cell};
use std::marker::Model;

/// A reassembly buffer of a capture (a tap): the cells that were carried from a queue on a channel
/// since the last one there that ended a frame. It keeps the first 32 of them, and takes no memory
/// of its own.
#[derive(Drop)]
pub struct Tap {
    key: TapKey,
    cells: [Cell; MOST_CELLS],
    len: usize,
    has_more: bool,
}

impl Model for Tap {
    ghost use Rattle.std.specs.Prelude.{◌≤◌, take};
    ghost use Rattle.frame_packets.specs.Taps.{Tap as Tapped};

    ghost Value = { Tapped };

    ghost view = { λ t. record { key = t.key; kept = take t.len t.cells; has_more = t.has_more } };

    ghost invariant = { λ t. t.len ≤ 32 };
}

impl Tap {
    /// No cells yet.
    pub fn new(key: TapKey) -> Tap
        ensures { result ≡ no_cells key }
    {
        Tap {
            key,
            cells: [BLANK_CELL; MOST_CELLS],
            len: 0,
            has_more: false,
        }
    }

    /// Takes a cell.
    pub fn push(&mut self, cell: &Cell)
        ensures { self.new ≡ with_cell self.old cell.now }
    {
        if self.len < MOST_CELLS {
            self.cells[self.len] = *cell;
            self.len += 1;
        } else {
            self.has_more = true;
        }
    }

    /// It has no cells again.
    pub fn clear(&mut self)
        ensures { self.new ≡ no_cells self.old.key }
    {
        self.len = 0;
        self.has_more = false;
    }

    /// The cells that were kept, the first one first.
    pub fn cells(&self) -> &[Cell]
        ensures cells { result.now ≡ self.now.kept }
        ensures few { length result.now ≤ 32 }
    {
        &self.cells[..self.len]
    }

    /// Whether there were others behind them.
    pub fn has_more(&self) -> bool
        ensures { result ≡ self.now.has_more }
    {
        self.has_more
    }
}
