//! The lines of a trace, with their ends. Where memory is wanting, part of a line may stand behind what
//! stood there.

ghost use Rattle.std.specs.Prelude.{◌≡◌, ◌++◌, ◌∷◌, [], OnOk, codes};
ghost use Rattle.lab_text.specs.Text.{line_of};
ghost use Rattle.tell_trace.specs.Passages.{Linked, Framed, Put, Bound, end_word, passage_line};
ghost use Rattle.net_types.specs.Label.{label_channel_of};
ghost use Rattle.script_model.specs.Texts.{name_of, port_text, channel_text};

use ipv4_packet::FlowId;
use lab_text::Text;
use net_types::{Channel, Mark, NodeId, OutOfMemory, Place, PortNo, numbered_channel};
use record_text::{write_channel, write_mark, write_name, write_place, write_port};
use topology::Topology;
use world_model::LinkEnd;

fn write_end(out: &mut Text, names: &Topology, end: LinkEnd) -> Result<(), OutOfMemory>
    ensures { OnOk result (out.new ≡ out.old ++ end_word names.now end) }
{
    write_place(out, names, Place::Out(end.node, end.port))
}

/// Appends `link` and the two ports.
pub(crate) fn write_link(
    out: &mut Text,
    names: &Topology,
    first: LinkEnd,
    second: LinkEnd,
) -> Result<(), OutOfMemory>
    ensures { OnOk result (out.new ≡ out.old ++ passage_line names.now (Linked first second)) }
{
    out.text("link ")?;
    write_end(out, names, first)?;
    out.text(" ")?;
    write_end(out, names, second)?;
    out.text("\n")
}

/// Appends a first word and the port whose queue a cell left.
pub(crate) fn write_left(
    out: &mut Text,
    names: &Topology,
    word: &str,
    end: LinkEnd,
) -> Result<(), OutOfMemory>
    ensures { OnOk result (out.new ≡ out.old ++ line_of (word.now ∷ end_word names.now end ∷ [])) }
{
    out.text(word)?;
    out.text(" ")?;
    write_end(out, names, end)?;
    out.text("\n")
}

/// Appends `frame`, the mark and the octets that the frame's cells are cut from.
pub(crate) fn write_frame(
    out: &mut Text,
    names: &Topology,
    mark: Mark,
    payload: &[u8],
) -> Result<(), OutOfMemory>
    ensures { OnOk result (out.new ≡ out.old ++ passage_line names.now (Framed mark payload.now)) }
{
    out.text("frame ")?;
    write_mark(out, mark)?;
    out.text(" ")?;
    out.hex(payload)?;
    out.text("\n")
}

/// Appends `put`, the port to whose queue a cell came, its channel and its mark.
pub(crate) fn write_put(
    out: &mut Text,
    names: &Topology,
    end: LinkEnd,
    channel: Channel,
    mark: Mark,
) -> Result<(), OutOfMemory>
    ensures { OnOk result (out.new ≡ out.old ++ passage_line names.now (Put end channel mark)) }
{
    out.text("put ")?;
    write_end(out, names, end)?;
    out.text(" ")?;
    write_channel(out, channel)?;
    out.text(" ")?;
    write_mark(out, mark)?;
    out.text("\n")
}

/// Appends a port of a node and the channel of the label with this number, each with a space behind it.
fn write_label_at(
    out: &mut Text,
    names: &Topology,
    end: LinkEnd,
    label: u16,
) -> Result<(), OutOfMemory>
    ensures { OnOk result (out.new ≡ out.old ++ (name_of names.now end.node ++ (codes " " ++ (port_text end.port ++ (codes " " ++ (channel_text (label_channel_of label) ++ codes " ")))))) }
{
    write_name(out, names, end.node)?;
    out.text(" ")?;
    write_port(out, end.port)?;
    out.text(" ")?;
    write_channel(out, numbered_channel(label))?;
    out.text(" ")
}

/// Appends `bind`, a port, the channel of the label with this number, and the flow's identifier.
pub(crate) fn write_bind(
    out: &mut Text,
    names: &Topology,
    end: LinkEnd,
    label: u16,
    flow: &FlowId,
) -> Result<(), OutOfMemory>
    ensures { OnOk result (out.new ≡ out.old ++ passage_line names.now (Bound end (label_channel_of label) flow.now)) }
{
    let mut identifier = [0; 16];
    let size = ipv4_packet::write_identifier(flow, &mut identifier);
    out.text("bind ")?;
    write_label_at(out, names, end, label)?;
    out.hex(&identifier[..size])?;
    out.text("\n")
}
