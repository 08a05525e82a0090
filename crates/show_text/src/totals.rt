//! How much of each a network holds.

ghost use Rattle.std.specs.Prelude.{◌≡◌, ◌++◌, OnOk, OnErr};
ghost use Rattle.lab_text.specs.Kept.{BreaksOff};
ghost use Rattle.show_text.specs.Shown.{end_line};

use crate::words::write_number;
use lab_text::Text;
use net_types::OutOfMemory;

/// The totals of a network's state: how much of each it holds. Each stays at its type's end. This
/// project's own.
#[derive(Clone, Copy, Debug, PartialEq, Eq)]
pub struct Totals {
    /// How many nodes it has.
    pub nodes: u64,
    /// How many labels its ports hold.
    pub labels: u64,
    /// How many grants its ports have.
    pub grants: u64,
    /// How many branches its switches have.
    pub branches: u64,
    /// How many cells wait in its queues.
    pub cells: u64,
}

/// Appends the last line: how much of each there is.
pub fn write_end(out: &mut Text, totals: &Totals) -> Result<(), OutOfMemory>
    ensures ok { OnOk result (out.new ≡ out.old ++ end_line totals.now) }
    ensures err { OnErr result (BreaksOff out.old (out.old ++ end_line totals.now) out.new) }
{
    write_number(out, "end nodes ", totals.nodes)?;
    write_number(out, " labels ", totals.labels)?;
    write_number(out, " grants ", totals.grants)?;
    write_number(out, " branches ", totals.branches)?;
    write_number(out, " cells ", totals.cells)?;
    out.text("\n")
}
