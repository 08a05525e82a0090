//! One queue of cells.

ghost use Rattle.std.specs.Prelude.{◌≡◌, ◌++◌, ◌∷◌, [], drop, length, slice_get, OnOk, OnErr};

use net_types::OutOfMemory;
use std::alloc::Global;
use std::collections::VecDeque;
use std::marker::Model;
use trace_model::TraceCell;

/// A first-in, first-out queue of the cells of a trace.
#[derive(Drop)]
pub struct Queue {
    cells: VecDeque<TraceCell>,
}

impl Model for Queue {
    ghost use Rattle.std.specs.Prelude.{List};
    ghost use Rattle.trace_model.specs.declared.cell.TraceCell.{TraceCell};

    ghost Value = { List TraceCell };

    ghost view = { λ q. q.cells.items };
}

impl Queue {
    /// No cells.
    pub fn new(alloc: Global) -> Queue
        ensures { result ≡ [] }
    {
        Queue {
            cells: VecDeque::new(alloc),
        }
    }

    /// How many cells there are.
    pub fn len(&self) -> usize
        ensures { result ≡ length self.now }
    {
        self.cells.len()
    }

    /// Puts a cell to the end. Want of memory changes nothing.
    pub fn push(&mut self, cell: TraceCell) -> Result<(), OutOfMemory>
        ensures ok { OnOk result (self.new ≡ self.old ++ cell ∷ []) }
        ensures err { OnErr result (self.new ≡ self.old) }
    {
        self.cells.push_back(cell)?;
        Ok(())
    }

    /// Takes the first cell, if there is one.
    pub fn pop(&mut self) -> Option<TraceCell>
        ensures cell { result ≡ slice_get self.old 0 }
        ensures rest { self.new ≡ drop 1 self.old }
    {
        self.cells.pop_front()
    }
}
