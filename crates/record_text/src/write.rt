//! The writing of a record's line.

ghost use Rattle.std.specs.Prelude.{◌≡◌, ◌++◌, ◌∷◌, [], OnOk, OnErr, codes, decimal};
ghost use Rattle.lab_text.specs.Kept.{BreaksOff};
ghost use Rattle.link_model.specs.declared.record.Record.TheVariants as told;
ghost use Rattle.lab_text.specs.Text.{hex_digits, line_of};
ghost use Rattle.script_model.specs.Records.{record_line};
ghost use Rattle.script_model.specs.Texts.{name_of, label_text, port_text, mark_text};
ghost use Rattle.lab_text.specs.Names.{cause_text};

use crate::places::{write_label, write_name, write_place, write_port};
use crate::values::write_mark;
use ipv4_packet::FlowId;
use lab_text::{Text, cause_name, drop_name, layer_name, refusal_name};
use link_model::{Cause, Layer, Record, Refusal};
use net_types::{Mark, NodeId, OutOfMemory, Place, PortNo};
use topology::Topology;

/// Appends a first word and a node's name, each with a space behind it.
fn write_node(out: &mut Text, word: &str, names: &Topology, node: NodeId) -> Result<(), OutOfMemory>
    ensures ok { OnOk result (out.new ≡ out.old ++ (word.now ++ (codes " " ++ (name_of names.now node ++ codes " ")))) }
    ensures err { OnErr result (BreaksOff out.old (out.old ++ (word.now ++ (codes " " ++ (name_of names.now node ++ codes " ")))) out.new) }
{
    out.text(word)?;
    out.text(" ")?;
    write_name(out, names, node)?;
    out.text(" ")
}

/// Appends a port, a space, a label of it, and what stands behind them.
fn write_port_label(
    out: &mut Text,
    names: &Topology,
    port: PortNo,
    vci: u16,
    behind: &str,
) -> Result<(), OutOfMemory>
    ensures ok { OnOk result (out.new ≡ out.old ++ (port_text port ++ (codes " " ++ (label_text names.now vci ++ behind.now)))) }
    ensures err { OnErr result (BreaksOff out.old (out.old ++ (port_text port ++ (codes " " ++ (label_text names.now vci ++ behind.now)))) out.new) }
{
    write_port(out, port)?;
    out.text(" ")?;
    write_label(out, names, vci)?;
    out.text(behind)
}

fn write_delivered(
    out: &mut Text,
    names: &Topology,
    node: NodeId,
    packet: u32,
    octets: &[u8],
) -> Result<(), OutOfMemory>
    ensures ok { OnOk result (out.new ≡ out.old ++ record_line names.now (told.Delivered node packet octets.now)) }
    ensures err { OnErr result (BreaksOff out.old (out.old ++ record_line names.now (told.Delivered node packet octets.now)) out.new) }
{
    write_node(out, "deliver", names, node)?;
    out.number(u64::from(packet))?;
    out.text(" ")?;
    out.hex(octets)?;
    out.text("\n")
}

/// Appends the line of a packet that a node gave up.
fn write_given_up(
    out: &mut Text,
    word: &str,
    names: &Topology,
    node: NodeId,
    packet: u32,
    why: &str,
) -> Result<(), OutOfMemory>
    ensures ok { OnOk result (out.new ≡ out.old ++ line_of (word.now ∷ name_of names.now node ∷ decimal packet ∷ why.now ∷ [])) }
    ensures err { OnErr result (BreaksOff out.old (out.old ++ line_of (word.now ∷ name_of names.now node ∷ decimal packet ∷ why.now ∷ [])) out.new) }
{
    write_node(out, word, names, node)?;
    out.number(u64::from(packet))?;
    out.text(" ")?;
    out.text(why)?;
    out.text("\n")
}

fn write_loss(out: &mut Text, mark: Mark, cause: Cause) -> Result<(), OutOfMemory>
    ensures ok { OnOk result (out.new ≡ out.old ++ line_of (codes "loss" ∷ mark_text mark ∷ cause_text cause ∷ [])) }
    ensures err { OnErr result (BreaksOff out.old (out.old ++ line_of (codes "loss" ∷ mark_text mark ∷ cause_text cause ∷ [])) out.new) }
{
    out.text("loss ")?;
    write_mark(out, mark)?;
    out.text(" ")?;
    out.text(cause_name(cause))?;
    out.text("\n")
}

fn write_chance(out: &mut Text, mark: Mark) -> Result<(), OutOfMemory>
    ensures ok { OnOk result (out.new ≡ out.old ++ line_of (codes "chance" ∷ mark_text mark ∷ [])) }
    ensures err { OnErr result (BreaksOff out.old (out.old ++ line_of (codes "chance" ∷ mark_text mark ∷ [])) out.new) }
{
    out.text("chance ")?;
    write_mark(out, mark)?;
    out.text("\n")
}

fn write_bad(
    out: &mut Text,
    names: &Topology,
    node: NodeId,
    layer: Layer,
    name: Refusal,
) -> Result<(), OutOfMemory>
    ensures ok { OnOk result (out.new ≡ out.old ++ record_line names.now (told.Bad node layer name)) }
    ensures err { OnErr result (BreaksOff out.old (out.old ++ record_line names.now (told.Bad node layer name)) out.new) }
{
    write_node(out, "bad", names, node)?;
    out.text(layer_name(layer))?;
    out.text(" ")?;
    out.text(refusal_name(name))?;
    out.text("\n")
}

/// Appends the line of a port that opened or closed.
fn write_port_line(
    out: &mut Text,
    word: &str,
    names: &Topology,
    node: NodeId,
    port: PortNo,
) -> Result<(), OutOfMemory>
    ensures ok { OnOk result (out.new ≡ out.old ++ line_of (word.now ∷ name_of names.now node ∷ port_text port ∷ [])) }
    ensures err { OnErr result (BreaksOff out.old (out.old ++ line_of (word.now ∷ name_of names.now node ∷ port_text port ∷ [])) out.new) }
{
    write_node(out, word, names, node)?;
    write_port(out, port)?;
    out.text("\n")
}

fn write_bind(
    out: &mut Text,
    names: &Topology,
    node: NodeId,
    port: PortNo,
    vci: u16,
    flow: &FlowId,
) -> Result<(), OutOfMemory>
    ensures ok { OnOk result (out.new ≡ out.old ++ record_line names.now (told.Bind node port vci flow.now)) }
    ensures err { OnErr result (BreaksOff out.old (out.old ++ record_line names.now (told.Bind node port vci flow.now)) out.new) }
{
    let mut identifier = [0; 16];
    let size = ipv4_packet::write_identifier(flow, &mut identifier);
    write_node(out, "bind", names, node)?;
    write_port_label(out, names, port, vci, " ")?;
    out.hex(&identifier[..size])?;
    out.text("\n")
}

/// Appends the line of a label that is spare again, or that ends.
fn write_label_line(
    out: &mut Text,
    word: &str,
    names: &Topology,
    node: NodeId,
    port: PortNo,
    vci: u16,
) -> Result<(), OutOfMemory>
    ensures ok { OnOk result (out.new ≡ out.old ++ line_of (word.now ∷ name_of names.now node ∷ port_text port ∷ label_text names.now vci ∷ [])) }
    ensures err { OnErr result (BreaksOff out.old (out.old ++ line_of (word.now ∷ name_of names.now node ∷ port_text port ∷ label_text names.now vci ∷ [])) out.new) }
{
    write_node(out, word, names, node)?;
    write_port_label(out, names, port, vci, "")?;
    out.text("\n")
}

fn write_join(
    out: &mut Text,
    names: &Topology,
    node: NodeId,
    port: PortNo,
    vci: u16,
    to_port: PortNo,
    to_vci: u16,
) -> Result<(), OutOfMemory>
    ensures ok { OnOk result (out.new ≡ out.old ++ record_line names.now (told.Join node port vci to_port to_vci)) }
    ensures err { OnErr result (BreaksOff out.old (out.old ++ record_line names.now (told.Join node port vci to_port to_vci)) out.new) }
{
    write_node(out, "join", names, node)?;
    write_port_label(out, names, port, vci, " ")?;
    write_port_label(out, names, to_port, to_vci, "")?;
    out.text("\n")
}

fn write_forged(out: &mut Text, names: &Topology, place: Place) -> Result<(), OutOfMemory>
    ensures ok { OnOk result (out.new ≡ out.old ++ record_line names.now (told.Forged place)) }
    ensures err { OnErr result (BreaksOff out.old (out.old ++ record_line names.now (told.Forged place)) out.new) }
{
    out.text("forged ")?;
    write_place(out, names, place)?;
    out.text("\n")
}

fn write_routes(
    out: &mut Text,
    names: &Topology,
    node: NodeId,
    number: u32,
) -> Result<(), OutOfMemory>
    ensures ok { OnOk result (out.new ≡ out.old ++ record_line names.now (told.Routes node number)) }
    ensures err { OnErr result (BreaksOff out.old (out.old ++ record_line names.now (told.Routes node number)) out.new) }
{
    write_node(out, "routes", names, node)?;
    out.number(u64::from(number))?;
    out.text("\n")
}

/// Appends a record's line, with its LF: its first word and then its fields, nodes by their names and
/// labels as the version of the script wants. A node that isn't there has no name. Where memory is
/// wanting, what stood there is still in front, and a front of the line may stand behind it.
pub fn write_record(item: &Record, names: &Topology, out: &mut Text) -> Result<(), OutOfMemory>
    ensures ok { OnOk result (out.new ≡ out.old ++ record_line names.now item.now) }
    ensures err { OnErr result (BreaksOff out.old (out.old ++ record_line names.now item.now) out.new) }
{
    match item {
        Record::Delivered {
            node,
            packet,
            octets,
        } => write_delivered(out, names, *node, *packet, octets.as_slice()),
        Record::Dropped {
            node,
            packet,
            cause,
        } => write_given_up(out, "drop", names, *node, *packet, drop_name(*cause)),
        Record::Refused { node, packet, name } => {
            write_given_up(out, "refuse", names, *node, *packet, refusal_name(*name))
        }
        Record::Loss { mark, cause } => write_loss(out, *mark, *cause),
        Record::Chance { mark } => write_chance(out, *mark),
        Record::Bad { node, layer, name } => write_bad(out, names, *node, *layer, *name),
        Record::Opened { node, port } => write_port_line(out, "open", names, *node, *port),
        Record::Closed { node, port } => write_port_line(out, "close", names, *node, *port),
        Record::Bind {
            node,
            port,
            vci,
            flow,
        } => write_bind(out, names, *node, *port, *vci, flow),
        Record::Free { node, port, vci } => {
            write_label_line(out, "free", names, *node, *port, *vci)
        }
        Record::Join {
            node,
            port,
            vci,
            to_port,
            to_vci,
        } => write_join(out, names, *node, *port, *vci, *to_port, *to_vci),
        Record::Part { node, port, vci } => {
            write_label_line(out, "part", names, *node, *port, *vci)
        }
        Record::Forged { place } => write_forged(out, names, *place),
        Record::Routes { node, number } => write_routes(out, names, *node, *number),
    }
}
