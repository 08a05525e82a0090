//! The queues of ports, and how many cells of each channel stand in them.

ghost use Rattle.std.specs.Prelude.{◌≡◌, ◌+◌, ◌-◌, ◌^◌, ◌<◌, ◌++◌, ◌∷◌, [], drop, length, slice_get, None, Some, IsTrue, IfOk, OnOk, OnErr, if◌then◌else◌};
ghost use Rattle.std.specs.List.{list_any};
ghost use Rattle.indexmap.specs.IndexMap.{spare};
ghost use Rattle.trace_model.specs.declared.end.TraceEnd.{TraceEnd};
ghost use Rattle.trace_model.specs.declared.end.TraceLabel.{TraceLabel};
ghost use Rattle.trace_model.specs.Ends.{same_end, same_label};
ghost use Rattle.trace_audit.specs.Counted.{cells_in, standing_on, AreCounted};

use crate::queue::Queue;
use indexmap::IndexMap;
use net_types::OutOfMemory;
use std::alloc::Global;
use trace_model::{TraceCell, TraceEnd, TraceLabel};

/// The cells of each queue.
type Cells = IndexMap<TraceEnd, Queue>;

/// How many cells of a channel stand in a queue.
type Standing = IndexMap<TraceLabel, usize>;

/// The output queues of the ports of a trace, with how many cells of each channel stand in each.
#[derive(Drop)]
pub struct Queues {
    alloc: Global,
    cells: Cells,
    standing: Standing,
    ghost counted: { AreCounted standing cells },
}

/// Puts a cell to the end of a queue, and answers how many stand there then.
fn push_cell(
    alloc: Global,
    cells: &mut Cells,
    end: TraceEnd,
    cell: TraceCell,
) -> Result<usize, OutOfMemory>
    ensures ok { OnOk result ((at : TraceEnd) → cells_in cells.new at ≡ (if same_end end at then cells_in cells.old at ++ cell ∷ [] else cells_in cells.old at)) }
    ensures len { IfOk result (λ len. len ≡ length (cells_in cells.new end)) }
    ensures fits { IfOk result (λ len. len < 2 ^ 64) }
    ensures err { OnErr result ((at : TraceEnd) → cells_in cells.new at ≡ cells_in cells.old at) }
{
    match cells.get_mut(&end) {
        Some(queue) => {
            queue.push(cell)?;
            Ok(queue.len())
        }
        None => {
            let mut queue = Queue::new(alloc);
            queue.push(cell)?;
            cells.insert(end, queue)?;
            Ok(1)
        }
    }
}

/// Takes the first cell of a queue, if there is one.
fn pop_cell(cells: &mut Cells, end: TraceEnd) -> Option<TraceCell>
    ensures cell { result ≡ slice_get (cells_in cells.old end) 0 }
    ensures rest { (at : TraceEnd) → cells_in cells.new at ≡ (if same_end end at then drop 1 (cells_in cells.old at) else cells_in cells.old at) }
{
    match cells.get_mut(&end) {
        Some(queue) => queue.pop(),
        None => None,
    }
}

/// How many cells of a channel stand in a queue.
fn standing(standing: &Standing, label: TraceLabel) -> usize
    ensures { result ≡ standing_on standing.now label }
{
    match standing.get(&label) {
        Some(count) => *count,
        None => 0,
    }
}

/// A cell of the channel more.
fn set_standing(standing: &mut Standing, label: TraceLabel, count: usize)
    requires { 0 < spare standing.old }
    ensures { (at : TraceLabel) → standing_on standing.new at ≡ (if same_label label at then count else standing_on standing.old at) }
{
    standing.insert(label, count).unwrap();
}

/// A cell of the channel less.
fn leave(standing: &mut Standing, label: TraceLabel)
    ensures { (at : TraceLabel) → standing_on standing.new at ≡ (if same_label label at then standing_on standing.old at - 1 else standing_on standing.old at) }
{
    if let Some(count) = standing.get_mut(&label) {
        *count = count.saturating_sub(1);
    }
}

impl Queues {
    ghost use Rattle.trace_model.specs.Judgement.{stands_on};
    ghost use Rattle.trace_audit.specs.Queues.{queue_in};

    /// All queues are empty.
    pub fn new(alloc: Global) -> Queues
        ensures { (at : TraceEnd) → queue_in result at ≡ [] }
    {
        Queues {
            alloc,
            cells: IndexMap::new(alloc),
            standing: IndexMap::new(alloc),
        }
    }

    /// Puts a cell to the end of a queue. Want of memory changes nothing.
    pub fn push(&mut self, end: TraceEnd, cell: TraceCell) -> Result<(), OutOfMemory>
        ensures ok { OnOk result ((at : TraceEnd) → queue_in self.new at ≡ (if same_end end at then queue_in self.old at ++ cell ∷ [] else queue_in self.old at)) }
        ensures err { OnErr result ((at : TraceEnd) → queue_in self.new at ≡ queue_in self.old at) }
    {
        let label = TraceLabel {
            end,
            channel: cell.channel,
        };
        self.standing.reserve(1)?;
        let count = standing(&self.standing, label);
        let _len = push_cell(self.alloc, &mut self.cells, end, cell)?;
        set_standing(&mut self.standing, label, count + 1);
        Ok(())
    }

    /// Takes the first cell of a queue, if there is one.
    pub fn pop(&mut self, end: TraceEnd) -> Option<TraceCell>
        ensures cell { result ≡ slice_get (queue_in self.old end) 0 }
        ensures rest { (at : TraceEnd) → queue_in self.new at ≡ (if same_end end at then drop 1 (queue_in self.old at) else queue_in self.old at) }
    {
        let cell = pop_cell(&mut self.cells, end)?;
        let label = TraceLabel {
            end,
            channel: cell.channel,
        };
        leave(&mut self.standing, label);
        Some(cell)
    }

    /// Whether a cell of the channel stands in the queue.
    pub fn holds(&self, label: TraceLabel) -> bool
        ensures { result ≡ list_any (stands_on label.channel) (queue_in self.now label.end) }
    {
        standing(&self.standing, label) > 0
    }
}
