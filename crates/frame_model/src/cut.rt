//! The entries of a chain that is cut.

ghost use Rattle.std.specs.Prelude.{◌≡◌, OnOk, if◌then◌else◌};
ghost use Rattle.std.specs.List.{list_any};
ghost use Rattle.frame_model.specs.Reassembly.{cut_chain};
ghost use Rattle.link_model.specs.Ledger.{same_mark};
ghost use Rattle.link_model.specs.Notes.{noted};

use atm_cells::Cell;
use link_model::{Cause, Notes, Record};
use net_types::{Mark, OutOfMemory};

/// Whether one of these cells has the mark.
fn has_mark(cells: &[Cell], mark: Mark) -> bool
    ensures { result ≡ list_any (λ cell. same_mark cell.mark mark) cells.now }
{
    cells.iter().any(|cell| cell.mark == mark)
}

/// Enters Cut for a mark that none of the cells before has.
fn note_new_cut(notes: &mut Notes, before: &[Cell], mark: Mark) -> Result<(), OutOfMemory>
    ensures { OnOk result (notes.new ≡ (if list_any (λ cell. same_mark cell.mark mark) before.now then notes.old else noted notes.old (Record.Loss mark Cause.Cut))) }
{
    if has_mark(before, mark) {
        return Ok(());
    }
    notes.push(Record::Loss {
        mark,
        cause: Cause::Cut,
    })
}

/// Enters Cut for each mark of these cells once, in the order of its first cell.
pub fn note_cut_chain(notes: &mut Notes, cells: &[Cell]) -> Result<(), OutOfMemory>
    ensures { OnOk result (notes.new ≡ cut_chain notes.old cells.now) }
{
    for place in 0..cells.len() {
        note_new_cut(notes, &cells[..place], cells[place].mark)?;
    }
    Ok(())
}
