//! The lines of a network, put to a report.

ghost use Rattle.std.specs.Prelude.{◌≡◌, ◌++◌, OnOk, Some};
ghost use Rattle.lab_io.specs.Fault.{count_after};
ghost use Rattle.lab_io.specs.Puts.{Puts, StaysWithin, is_failed};
ghost use Rattle.script_model.specs.Reports.{last_line_by};
ghost use Rattle.show_text.specs.Shown.{end_line, site_lines, totals_of, world_lines};
ghost use Rattle.world_model.specs.World.{Site, site_at};
ghost use Rattle.world.specs.Network.{IsNodeIn, no_notes, world_of};
ghost use Rattle.world.specs.Running.{Runs};

use crate::shown_controller::ShownController;
use crate::site::write_site;
use crate::totals::count_all;
use lab_io::{ReportWriter, Sink, Stop};
use lab_text::Text;
use net_types::{NodeId, OutOfMemory};
use record_text::write_refused;
use script_model::Refused;
use show_text::write_end;
use std::alloc::Global;
use topology::Topology;
use world::World;

/// Puts the lines of a node.
fn tell_node<C: ShownController, K: Sink>(
    alloc: Global,
    names: &Topology,
    world: &World<C>,
    node: NodeId,
    writer: &mut ReportWriter,
    sink: &mut K,
) -> Result<(), Stop>
    requires runs { Runs C.seen names.now world.now }
    requires node { IsNodeIn world.now node }
    ensures put { (site : Site) → site_at (world_of C.seen world.now no_notes) node ≡ Some site → Puts result writer.old writer.new (K.written sink.old) (K.written sink.new) (site_lines names.now site) }
    ensures room { StaysWithin writer.old writer.new }
    ensures faults { K.faults sink.new ≡ count_after (is_failed result) (K.faults sink.old) }
{
    let mut lines = Text::new(alloc);
    write_site(&mut lines, names, world, node)?;
    writer.put(lines.as_slice(), sink)?;
    Ok(())
}

/// Puts the lines of all nodes, in their order.
pub(crate) fn tell_nodes<C: ShownController, K: Sink>(
    alloc: Global,
    names: &Topology,
    world: &World<C>,
    writer: &mut ReportWriter,
    sink: &mut K,
) -> Result<(), Stop>
    requires { Runs C.seen names.now world.now }
    ensures put { Puts result writer.old writer.new (K.written sink.old) (K.written sink.new) (world_lines names.now (world_of C.seen world.now no_notes)) }
    ensures room { StaysWithin writer.old writer.new }
    ensures faults { K.faults sink.new ≡ count_after (is_failed result) (K.faults sink.old) }
{
    for place in 0..names.nodes() {
        tell_node(alloc, names, world, NodeId(place as u8 + 1), writer, sink)?;
    }
    Ok(())
}

/// Appends how much of each there is, or what was refused.
fn write_last<C: ShownController>(
    out: &mut Text,
    names: &Topology,
    world: &World<C>,
    refused: Option<Refused>,
) -> Result<(), OutOfMemory>
    requires { Runs C.seen names.now world.now }
    ensures { OnOk result (out.new ≡ out.old ++ last_line_by (end_line (totals_of (world_of C.seen world.now no_notes))) refused) }
{
    match refused {
        None => write_end(out, &count_all(world, names)),
        Some(refused) => write_refused(out, refused),
    }
}

/// Puts the last line: how much of each there is, or what was refused.
pub(crate) fn tell_last<C: ShownController, K: Sink>(
    alloc: Global,
    names: &Topology,
    world: &World<C>,
    refused: Option<Refused>,
    writer: &mut ReportWriter,
    sink: &mut K,
) -> Result<(), Stop>
    requires { Runs C.seen names.now world.now }
    ensures put { Puts result writer.old writer.new (K.written sink.old) (K.written sink.new) (last_line_by (end_line (totals_of (world_of C.seen world.now no_notes))) refused) }
    ensures room { StaysWithin writer.old writer.new }
    ensures faults { K.faults sink.new ≡ count_after (is_failed result) (K.faults sink.old) }
{
    let mut line = Text::new(alloc);
    write_last(&mut line, names, world, refused)?;
    writer.put(line.as_slice(), sink)?;
    Ok(())
}
