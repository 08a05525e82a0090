//! Cells as values of JSON.

ghost use Rattle.std.specs.Prelude.{◌≡◌, ◌++◌, OnOk, codes, map};
ghost use Rattle.script_model.specs.Texts.{channel_text, mark_text};
ghost use Rattle.tell_journal.specs.Json.{array, truth};
ghost use Rattle.tell_journal.specs.Journal.{cell_value, taken_value};

use crate::json::write_comma;
use atm_cells::Cell;
use lab_text::Text;
use net_types::OutOfMemory;
use record_text::{write_channel, write_mark, write_place};
use telling_model::Standing;
use topology::Topology;

fn truth_name(holds: bool) -> &'static str
    ensures { result.now ≡ truth holds }
{
    if holds { "true" } else { "false" }
}

/// Appends whether a cell is its frame's last, and the end of the cell.
fn write_last(out: &mut Text, last: bool) -> Result<(), OutOfMemory>
    ensures { OnOk result (out.new ≡ out.old ++ (truth last ++ codes "}")) }
{
    out.text(truth_name(last))?;
    out.text("}")
}

/// Appends what is said of a cell behind its queue's name.
fn write_header(out: &mut Text, cell: &Cell) -> Result<(), OutOfMemory>
    ensures { OnOk result (out.new ≡ out.old ++ (codes "\",\"channel\":\"" ++ (channel_text cell.now.header.channel ++ (codes "\",\"mark\":\"" ++ (mark_text cell.now.mark ++ (codes "\",\"last\":" ++ (truth cell.now.header.last ++ codes "}"))))))) }
{
    out.text("\",\"channel\":\"")?;
    write_channel(out, cell.header.channel)?;
    out.text("\",\"mark\":\"")?;
    write_mark(out, cell.mark)?;
    out.text("\",\"last\":")?;
    write_last(out, cell.header.last)
}

fn write_cell(out: &mut Text, names: &Topology, standing: &Standing) -> Result<(), OutOfMemory>
    ensures { OnOk result (out.new ≡ out.old ++ cell_value names.now standing.now) }
{
    out.text("{\"queue\":\"")?;
    write_place(out, names, standing.place)?;
    write_header(out, &standing.cell)
}

/// Appends the cell that an event took, if it took one.
pub(crate) fn write_taken(
    out: &mut Text,
    names: &Topology,
    taken: &Option<Standing>,
) -> Result<(), OutOfMemory>
    ensures { OnOk result (out.new ≡ out.old ++ taken_value names.now taken.now) }
{
    match taken {
        Some(standing) => write_cell(out, names, standing),
        None => out.text("null"),
    }
}

/// Appends the cells that an event put.
pub(crate) fn write_put(
    out: &mut Text,
    names: &Topology,
    put: &[Standing],
) -> Result<(), OutOfMemory>
    ensures { OnOk result (out.new ≡ out.old ++ array (map (cell_value names.now) put.now)) }
{
    out.text("[")?;
    for (index, standing) in put.iter().enumerate() {
        write_comma(out, index)?;
        write_cell(out, names, standing)?;
    }
    out.text("]")
}
