//! The lines of a topology, for tests and claims alone.

ghost use Rattle.std.specs.Prelude.{◌≡◌, ◌++◌, OnOk, OnErr, codes};
ghost use Rattle.lab_text.specs.Kept.{BreaksOff};
ghost use Rattle.world_model.specs.network_model.declared.line.TopologyLine.TheVariants as lines;
ghost use Rattle.lab_text.specs.Text.{line_of};
ghost use Rattle.script_model.specs.Texts.{label_text, port_text};
ghost use Rattle.script_model.specs.Writing.{topology_words};

use crate::parts::write_named;
use crate::routes::{write_local, write_via};
use lab_text::Text;
use net_types::{Addr, OutOfMemory, PortNo};
use record_text::{write_address, write_end, write_label, write_port};
use topology::Topology;
use world_model::TopologyLine;

fn write_node(
    out: &mut Text,
    names: &Topology,
    name: &[u8],
    address: Addr,
) -> Result<(), OutOfMemory>
    ensures ok { OnOk result (out.new ≡ out.old ++ line_of (topology_words names.now (lines.Node name.now address))) }
    ensures err { OnErr result (BreaksOff out.old (out.old ++ line_of (topology_words names.now (lines.Node name.now address))) out.new) }
{
    write_named(out, "node", name, " ")?;
    write_address(out, address)?;
    out.text("\n")
}

fn write_cells(out: &mut Text, names: &Topology, name: &[u8], cells: u32) -> Result<(), OutOfMemory>
    ensures ok { OnOk result (out.new ≡ out.old ++ line_of (topology_words names.now (lines.Cells name.now cells))) }
    ensures err { OnErr result (BreaksOff out.old (out.old ++ line_of (topology_words names.now (lines.Cells name.now cells))) out.new) }
{
    write_named(out, "cells", name, " ")?;
    out.number(u64::from(cells))?;
    out.text("\n")
}

/// Appends the first three words of a line of labels, each with a space behind it.
fn write_port_of(out: &mut Text, name: &[u8], port: PortNo) -> Result<(), OutOfMemory>
    ensures ok { OnOk result (out.new ≡ out.old ++ (codes "labels " ++ (name.now ++ (codes " " ++ (port_text port ++ codes " "))))) }
    ensures err { OnErr result (BreaksOff out.old (out.old ++ (codes "labels " ++ (name.now ++ (codes " " ++ (port_text port ++ codes " "))))) out.new) }
{
    write_named(out, "labels", name, " ")?;
    write_port(out, port)?;
    out.text(" ")
}

/// Appends a label and what stands behind it.
fn write_label_before(
    out: &mut Text,
    names: &Topology,
    label: u16,
    behind: &str,
) -> Result<(), OutOfMemory>
    ensures ok { OnOk result (out.new ≡ out.old ++ (label_text names.now label ++ behind.now)) }
    ensures err { OnErr result (BreaksOff out.old (out.old ++ (label_text names.now label ++ behind.now)) out.new) }
{
    write_label(out, names, label)?;
    out.text(behind)
}

fn write_labels(
    out: &mut Text,
    names: &Topology,
    name: &[u8],
    port: PortNo,
    lo: u16,
    hi: u16,
) -> Result<(), OutOfMemory>
    ensures ok { OnOk result (out.new ≡ out.old ++ line_of (topology_words names.now (lines.Labels name.now port lo hi))) }
    ensures err { OnErr result (BreaksOff out.old (out.old ++ line_of (topology_words names.now (lines.Labels name.now port lo hi))) out.new) }
{
    write_port_of(out, name, port)?;
    write_label_before(out, names, lo, " ")?;
    write_label_before(out, names, hi, "")?;
    out.text("\n")
}

fn write_link(
    out: &mut Text,
    names: &Topology,
    first: &[u8],
    first_port: PortNo,
    second: &[u8],
    second_port: PortNo,
) -> Result<(), OutOfMemory>
    ensures ok { OnOk result (out.new ≡ out.old ++ line_of (topology_words names.now (lines.Link (first.now, first_port) (second.now, second_port)))) }
    ensures err { OnErr result (BreaksOff out.old (out.old ++ line_of (topology_words names.now (lines.Link (first.now, first_port) (second.now, second_port)))) out.new) }
{
    out.text("link ")?;
    write_end(out, first, first_port)?;
    out.text(" ")?;
    write_end(out, second, second_port)?;
    out.text("\n")
}

fn write_policy(out: &mut Text, names: &Topology, x: u32, y: u32) -> Result<(), OutOfMemory>
    ensures ok { OnOk result (out.new ≡ out.old ++ line_of (topology_words names.now (lines.PolicyXy x y))) }
    ensures err { OnErr result (BreaksOff out.old (out.old ++ line_of (topology_words names.now (lines.PolicyXy x y))) out.new) }
{
    out.text("policy xy ")?;
    out.number(u64::from(x))?;
    out.text(" ")?;
    out.number(u64::from(y))?;
    out.text("\n")
}

fn write_timers(
    out: &mut Text,
    names: &Topology,
    lifetime: u16,
    refresh: u16,
    idle: u16,
) -> Result<(), OutOfMemory>
    ensures ok { OnOk result (out.new ≡ out.old ++ line_of (topology_words names.now (lines.Timers lifetime refresh idle))) }
    ensures err { OnErr result (BreaksOff out.old (out.old ++ line_of (topology_words names.now (lines.Timers lifetime refresh idle))) out.new) }
{
    out.text("timers ")?;
    out.number(u64::from(lifetime))?;
    out.text(" ")?;
    out.number(u64::from(refresh))?;
    out.text(" ")?;
    out.number(u64::from(idle))?;
    out.text("\n")
}

fn write_version(out: &mut Text, names: &Topology, version: u8) -> Result<(), OutOfMemory>
    ensures ok { OnOk result (out.new ≡ out.old ++ line_of (topology_words names.now (lines.Version version))) }
    ensures err { OnErr result (BreaksOff out.old (out.old ++ line_of (topology_words names.now (lines.Version version))) out.new) }
{
    out.text("version ")?;
    out.number(u64::from(version))?;
    out.text("\n")
}

/// Appends a line of a topology.
pub(crate) fn write_topology_line(
    out: &mut Text,
    names: &Topology,
    line: &TopologyLine,
) -> Result<(), OutOfMemory>
    ensures ok { OnOk result (out.new ≡ out.old ++ line_of (topology_words names.now line.now)) }
    ensures err { OnErr result (BreaksOff out.old (out.old ++ line_of (topology_words names.now line.now)) out.new) }
{
    match line {
        TopologyLine::Node { name, address } => write_node(out, names, name.as_slice(), *address),
        TopologyLine::Cells { name, cells } => write_cells(out, names, name.as_slice(), *cells),
        TopologyLine::Labels { name, port, lo, hi } => {
            write_labels(out, names, name.as_slice(), *port, *lo, *hi)
        }
        TopologyLine::Link { first, second } => write_link(
            out,
            names,
            first.0.as_slice(),
            first.1,
            second.0.as_slice(),
            second.1,
        ),
        TopologyLine::RouteVia { name, prefix, port } => {
            write_via(out, "route", name.as_slice(), *prefix, *port)
        }
        TopologyLine::RouteLocal { name, prefix } => {
            write_local(out, "route", name.as_slice(), *prefix)
        }
        TopologyLine::PolicyXy { x, y } => write_policy(out, names, *x, *y),
        TopologyLine::PolicyNever => out.text("policy never\n"),
        TopologyLine::Timers {
            lifetime,
            refresh,
            idle,
        } => write_timers(out, names, *lifetime, *refresh, *idle),
        TopologyLine::Version { version } => write_version(out, names, *version),
    }
}
