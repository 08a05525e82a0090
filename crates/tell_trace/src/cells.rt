//! The lines of cells that came to queues, and of their frames.

ghost use Rattle.std.specs.Prelude.{◌≡◌, ◌++◌, OnOk, Some};
ghost use Rattle.link_model.specs.Ledger.{payload_of};
ghost use Rattle.tell_trace.specs.Passages.{passage_lines};
ghost use Rattle.tell_trace.specs.Trace.{cell_told, frame_told, framed_by, is_due};

use crate::lines::{write_frame, write_put};
use crate::marks::ToldMarks;
use lab_text::Text;
use link_model::Ledger;
use net_types::{Channel, Mark, OutOfMemory, Place, label_number};
use telling_model::Standing;
use topology::Topology;
use world_model::LinkEnd;

/// Whether the frame is to be told before a cell of it on this channel.
fn is_due(told: &ToldMarks, channel: Channel, mark: Mark) -> bool
    ensures { result ≡ is_due told.now channel mark }
{
    label_number(channel).is_some() && !told.has(mark)
}

/// Appends the line of a frame where it is due before a cell on this channel.
fn write_due(
    out: &mut Text,
    names: &Topology,
    ledger: &Ledger,
    told: &mut ToldMarks,
    channel: Channel,
    mark: Mark,
) -> Result<(), OutOfMemory>
    ensures lines { OnOk result (out.new ≡ out.old ++ passage_lines names.now (frame_told ledger.now.frames told.old channel mark).passages) }
    ensures marks { OnOk result (told.new ≡ (frame_told ledger.now.frames told.old channel mark).marks) }
{
    if !is_due(told, channel, mark) {
        return Ok(());
    }
    match ledger.payload(mark) {
        None => Ok(()),
        Some(payload) => {
            told.tell(mark)?;
            write_frame(out, names, mark, payload)
        }
    }
}

/// Appends the line of a cell that came to a port's queue, and before it the line of its frame where
/// that is due; nothing where the queue is none of a port.
pub(crate) fn write_cell(
    out: &mut Text,
    names: &Topology,
    ledger: &Ledger,
    told: &mut ToldMarks,
    standing: &Standing,
) -> Result<(), OutOfMemory>
    ensures lines { OnOk result (out.new ≡ out.old ++ passage_lines names.now (cell_told ledger.now.frames told.old standing.now.place standing.now.cell).passages) }
    ensures marks { OnOk result (told.new ≡ (cell_told ledger.now.frames told.old standing.now.place standing.now.cell).marks) }
{
    let Place::Out(node, port) = standing.place else {
        return Ok(());
    };
    let channel = standing.cell.header.channel;
    let mark = standing.cell.mark;
    write_due(out, names, ledger, told, channel, mark)?;
    write_put(out, names, LinkEnd { node, port }, channel, mark)
}
