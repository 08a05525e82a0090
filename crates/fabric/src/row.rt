//! The branches of one row of channels, in an array.

ghost use Rattle.std.specs.Prelude.{◌≡◌, ◌<◌, ◌≤◌, ℕ, None, Some, length, option_map, replicate, slice_index_or, slice_set, is_some, true, IfSome, IfNone, IfOk, false};
ghost use Rattle.std.specs.Vec.{vec_capacity};
ghost use Rattle.cell_pool.specs.Room.{filled};
ghost use Rattle.fabric.specs.Table.{after};

use atm_cells::Cell;
use crossbar_model::Branch;
use net_types::{End, Mark, OutOfMemory};
use std::alloc::Global;
use std::marker::Model;

/// A channel's branch, if it has one, in 32 octets.
#[derive(Debug, Drop)]
struct Entry {
    /// Where its cells go.
    output: Option<End>,
    /// The branch's `unfinished`; of no meaning without an output.
    unfinished: Option<Mark>,
}

impl Model for Entry {
    ghost use Rattle.std.specs.Prelude.{Option};
    ghost use Rattle.std.specs.Option.{option_map};
    ghost use Rattle.crossbar_model.specs.declared.branch.Branch.{Branch};

    ghost Value = { Option Branch };

    ghost view = { λ e. option_map (λ output. record { output = output; unfinished = e.unfinished }) e.output };
}

impl Entry {
    /// The entry of a branch, or of none.
    fn new(branch: Option<Branch>) -> Entry
        ensures { result ≡ branch }
    {
        match branch {
            Some(branch) => Entry {
                output: Some(branch.output),
                unfinished: branch.unfinished,
            },
            None => Entry {
                output: None,
                unfinished: None,
            },
        }
    }

    fn branch(&self) -> Option<Branch>
        ensures { result ≡ self.now }
    {
        Some(Branch {
            output: self.output?,
            unfinished: self.unfinished,
        })
    }

    /// A cell passes on the branch, if there is one: the answer is where it goes.
    fn pass(&mut self, cell: &Cell) -> Option<End>
        ensures output { result ≡ option_map (λ b. b.output) self.old }
        ensures after { self.new ≡ after self.old cell.now }
    {
        let output = self.output?;
        self.unfinished = if cell.header.last {
            None
        } else {
            Some(cell.mark)
        };
        Some(output)
    }

    fn is_used(&self) -> bool
        ensures { result ≡ is_some self.now }
    {
        self.output.is_some()
    }
}

/// Writes entries without a branch, until there is one in the column.
fn write_up_to(entries: &mut Vec<Entry>, column: usize)
    requires { column < vec_capacity entries.old }
    ensures written { column < length entries.new.items }
    ensures few { (n : ℕ) → column < n → length entries.old.items ≤ n → length entries.new.items ≤ n }
    ensures same { (n : ℕ) → column < n → filled n None entries.new.items ≡ filled n None entries.old.items }
    ensures room { vec_capacity entries.old ≤ vec_capacity entries.new }
{
    while entries.len() <= column {
        let Ok(()) = entries.push(Entry::new(None)) else {
            unreachable!()
        };
    }
}

/// The branches of the channels of a row, by their columns. Memory for all columns is reserved at
/// opening; those behind the last one that ever had a branch aren't written.
#[derive(Debug, Drop)]
pub(crate) struct Row {
    /// How many columns there are.
    columns: usize,
    /// The entries of the first ones.
    entries: Vec<Entry>,
}

impl Model for Row {
    ghost use Rattle.std.specs.Prelude.{◌≤◌, List, Option, None, length};
    ghost use Rattle.std.specs.Vec.{vec_capacity};
    ghost use Rattle.crossbar_model.specs.declared.branch.Branch.{Branch};

    ghost Value = { List (Option Branch) };

    ghost use Rattle.cell_pool.specs.Room.{filled};

    ghost view = { λ r. filled r.columns None r.entries.items };

    ghost invariant = { λ r. record {
      within : length r.entries.items ≤ r.columns;
      room : r.columns ≤ vec_capacity r.entries;
    } };
}

impl Row {
    /// Room for so many channels, none with a branch.
    pub(crate) fn open(alloc: Global, columns: usize) -> Result<Row, OutOfMemory>
        ensures { IfOk result (λ row. row ≡ replicate columns None) }
    {
        Ok(Row {
            columns,
            entries: Vec::with_capacity(alloc, columns)?,
        })
    }

    /// The branch in a column. None too where the row hasn't that column.
    pub(crate) fn get(&self, column: usize) -> Option<Branch>
        ensures { result ≡ slice_index_or self.now column None }
    {
        self.entries.get(column)?.branch()
    }

    /// A cell passes on the branch in a column, if there is one: the answer is where it goes.
    pub(crate) fn pass(&mut self, column: usize, cell: &Cell) -> Option<End>
        ensures output { result ≡ option_map (λ b. b.output) (slice_index_or self.old column None) }
        ensures after { self.new ≡ slice_set self.old column (after (slice_index_or self.old column None) cell.now) }
    {
        let entry = self.entries.get_mut(column)?;
        entry.pass(cell)
    }

    /// Sets the branch in a column.
    pub(crate) fn set(&mut self, column: usize, branch: Branch)
        requires { column < length self.old }
        ensures { self.new ≡ slice_set self.old column (Some branch) }
    {
        write_up_to(&mut self.entries, column);
        self.entries[column] = Entry::new(Some(branch));
    }

    /// Takes the branch in a column away.
    pub(crate) fn clear(&mut self, column: usize)
        requires { column < length self.old }
        ensures { self.new ≡ slice_set self.old column None }
    {
        if column < self.entries.len() {
            self.entries[column] = Entry::new(None);
        }
    }

    /// The first column from `from` on that has a branch, and the branch.
    pub(crate) fn first_from(&self, from: usize) -> Option<(usize, Branch)>
        ensures some { IfSome result (λ r. slice_index_or self.now r.0 None ≡ Some r.1) }
        ensures within { IfSome result (λ r. (from ≤ r.0) × (r.0 < length self.now)) }
        ensures before { IfSome result (λ r. (j : ℕ) → from ≤ j → j < r.0 → slice_index_or self.now j None ≡ None) }
        ensures none { IfNone result ((j : ℕ) → from ≤ j → slice_index_or self.now j None ≡ None) }
    {
        for column in from..self.entries.len() {
            if let Some(branch) = self.entries[column].branch() {
                return Some((column, branch));
            }
        }
        None
    }

    /// The first column that has a branch.
    pub(crate) fn first(&self) -> Option<usize>
        ensures some { IfSome result (λ k. is_some (slice_index_or self.now k None) ≡ true) }
        ensures before { IfSome result (λ k. (j : ℕ) → j < k → is_some (slice_index_or self.now j None) ≡ false) }
        ensures within { IfSome result (λ k. k < length self.now) }
        ensures none { IfNone result ((j : ℕ) → j < length self.now → is_some (slice_index_or self.now j None) ≡ false) }
    {
        self.entries.iter().position(|entry| entry.is_used())
    }
}
