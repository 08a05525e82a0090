//! A network as a value of JSON.

ghost use Rattle.std.specs.Prelude.{◌≡◌, ◌++◌, ◌<◌, IfOk, OnOk, length, map, slice_get, Some};
ghost use Rattle.world_model.specs.Conditions.{IsNode};
ghost use Rattle.world_model.specs.Topology.{Link, Node, node_at};
ghost use Rattle.tell_journal.specs.Json.{array, json_line};
ghost use Rattle.tell_journal.specs.Journal.{end_value, link_value, network_value, node_value};

use crate::json::write_comma;
use lab_text::Text;
use net_types::{NodeId, OutOfMemory, PortNo};
use record_text::{write_address, write_end};
use std::alloc::Global;
use topology::Topology;

fn write_node(out: &mut Text, names: &Topology, node: NodeId) -> Result<(), OutOfMemory>
    requires { IsNode names.now node }
    ensures { (found : Node) → node_at names.now node ≡ Some found → OnOk result (out.new ≡ out.old ++ node_value found) }
{
    out.text("{\"name\":\"")?;
    out.octets(names.name(node))?;
    out.text("\",\"address\":\"")?;
    write_address(out, names.address(node))?;
    out.text("\"}")
}

fn write_nodes(out: &mut Text, names: &Topology) -> Result<(), OutOfMemory>
    ensures { OnOk result (out.new ≡ out.old ++ array (map node_value names.now.nodes)) }
{
    out.text("[")?;
    for place in 0..names.nodes() {
        write_comma(out, place)?;
        write_node(out, names, NodeId(place as u8 + 1))?;
    }
    out.text("]")
}

/// Appends an end of a link.
fn write_link_end(
    out: &mut Text,
    names: &Topology,
    node: NodeId,
    port: PortNo,
) -> Result<(), OutOfMemory>
    ensures { OnOk result (out.new ≡ out.old ++ end_value names.now (record { node = node; port = port })) }
{
    out.text("\"")?;
    write_end(out, names.name(node), port)?;
    out.text("\"")
}

/// Appends the link at this index in the order of lines, from 0.
fn write_link(out: &mut Text, names: &Topology, place: usize) -> Result<(), OutOfMemory>
    requires { place < length names.now.links }
    ensures { (link : Link) → slice_get names.now.links place ≡ Some link → OnOk result (out.new ≡ out.old ++ link_value names.now link) }
{
    let (first, second) = names.link(place);
    out.text("[")?;
    write_link_end(out, names, first.0, first.1)?;
    out.text(",")?;
    write_link_end(out, names, second.0, second.1)?;
    out.text("]")
}

fn write_links(out: &mut Text, names: &Topology) -> Result<(), OutOfMemory>
    ensures { OnOk result (out.new ≡ out.old ++ array (map (link_value names.now) names.now.links)) }
{
    out.text("[")?;
    for place in 0..names.links() {
        write_comma(out, place)?;
        write_link(out, names, place)?;
    }
    out.text("]")
}

/// The line of a network: its version, its nodes and its links.
pub(crate) fn network_line(alloc: Global, names: &Topology) -> Result<Text, OutOfMemory>
    ensures { IfOk result (λ line. line ≡ json_line (network_value names.now)) }
{
    let mut line = Text::new(alloc);
    line.text("{\"version\":")?;
    line.number(u64::from(names.version()))?;
    line.text(",\"nodes\":")?;
    write_nodes(&mut line, names)?;
    line.text(",\"links\":")?;
    write_links(&mut line, names)?;
    line.text("}\n")?;
    Ok(line)
}
