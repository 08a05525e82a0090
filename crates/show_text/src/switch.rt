//! A switch, its branches, and queues.

ghost use Rattle.std.specs.Prelude.{◌≡◌, ◌++◌, OnOk, OnErr};
ghost use Rattle.lab_text.specs.Kept.{BreaksOff};
ghost use Rattle.show_text.specs.Shown.{queue_line};
ghost use Rattle.show_text.specs.Switch.{branch_line, channel_at_text, switch_line};

use crate::words::{state_word, write_number, write_slots};
use adjacency_table::State;
use lab_text::Text;
use net_types::{End, NodeId, OutOfMemory, Place};
use record_text::{write_channel, write_name, write_place, write_port};
use topology::Topology;

/// Appends the line of a switch: the state of its side of the adjacency with its controller, how many
/// cells it switched from link to link, and how many of its slots are free.
pub fn write_switch(
    out: &mut Text,
    names: &Topology,
    node: NodeId,
    state: State,
    switched: u64,
    free: usize,
    cells: usize,
) -> Result<(), OutOfMemory>
    ensures ok { OnOk result (out.new ≡ out.old ++ switch_line names.now node state switched free cells) }
    ensures err { OnErr result (BreaksOff out.old (out.old ++ switch_line names.now node state switched free cells) out.new) }
{
    out.text("switch ")?;
    write_name(out, names, node)?;
    out.text(" ")?;
    out.text(state_word(state))?;
    write_number(out, " switched ", switched)?;
    write_slots(out, free, cells)?;
    out.text("\n")
}

/// Appends a port and a channel of it.
fn write_channel_at(out: &mut Text, end: End) -> Result<(), OutOfMemory>
    ensures ok { OnOk result (out.new ≡ out.old ++ channel_at_text end) }
    ensures err { OnErr result (BreaksOff out.old (out.old ++ channel_at_text end) out.new) }
{
    write_port(out, end.port)?;
    out.text(" ")?;
    write_channel(out, end.channel)
}

/// Appends the line of a branch.
pub fn write_branch(
    out: &mut Text,
    names: &Topology,
    node: NodeId,
    input: End,
    output: End,
) -> Result<(), OutOfMemory>
    ensures ok { OnOk result (out.new ≡ out.old ++ branch_line names.now node input output) }
    ensures err { OnErr result (BreaksOff out.old (out.old ++ branch_line names.now node input output) out.new) }
{
    out.text("branch ")?;
    write_name(out, names, node)?;
    out.text(" ")?;
    write_channel_at(out, input)?;
    out.text(" to ")?;
    write_channel_at(out, output)?;
    out.text("\n")
}

/// Appends the line of a queue that holds so many cells; nothing where it holds none.
pub fn write_queue(
    out: &mut Text,
    names: &Topology,
    place: Place,
    cells: usize,
) -> Result<(), OutOfMemory>
    ensures ok { OnOk result (out.new ≡ out.old ++ queue_line names.now place cells) }
    ensures err { OnErr result (BreaksOff out.old (out.old ++ queue_line names.now place cells) out.new) }
{
    if cells == 0 {
        return Ok(());
    }
    out.text("queue ")?;
    write_place(out, names, place)?;
    write_number(out, " ", cells as u64)?;
    out.text("\n")
}
