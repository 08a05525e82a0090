//! The entry of the frame that was open on a branch.

ghost use Rattle.std.specs.Prelude.{◌≡◌, OnOk};
ghost use Rattle.world_model.specs.Requests.{noted_cut};

use link_model::{Cause, Notes, Record};
use net_types::{Mark, OutOfMemory};

/// Enters Cut for the frame that was open on a branch.
pub(crate) fn note_cut(notes: &mut Notes, mark: Option<Mark>) -> Result<(), OutOfMemory>
    ensures { OnOk result (notes.new ≡ noted_cut notes.old mark) }
{
    if let Some(mark) = mark {
        notes.push(Record::Loss {
            mark,
            cause: Cause::Cut,
        })?;
    }
    Ok(())
}
