//! The lines of a trace, put to a report.

ghost use Rattle.std.specs.Prelude.{◌≡◌, ◌++◌, ◌∷◌, ◌<◌, [], length, slice_get, OnOk, Some, codes};
ghost use Rattle.std.specs.List.{flat_map};
ghost use Rattle.lab_io.specs.Fault.{count_after};
ghost use Rattle.lab_text.specs.Text.{line_of};
ghost use Rattle.lab_io.specs.Puts.{Puts, StaysWithin, is_failed};
ghost use Rattle.tell_trace.specs.Passages.{Linked, passage_line, passage_lines};
ghost use Rattle.tell_trace.specs.Trace.{bind_told, cell_told, cells_told, links_told, passed as event_passed, taken_told};
ghost use Rattle.script_model.specs.Reports.{last_line_by};

use crate::cells::write_cell;
use crate::lines::{write_bind, write_left, write_link};
use crate::marks::ToldMarks;
use lab_io::{ReportWriter, Sink, Stop};
use lab_text::Text;
use link_model::{Ledger, Notes, Record};
use net_types::{OutOfMemory, Place};
use record_text::write_refused;
use script_model::Refused;
use std::alloc::Global;
use telling_model::Standing;
use topology::Topology;
use world_model::{Event, LinkEnd};

/// Puts the line of a link.
fn tell_link<K: Sink>(
    alloc: Global,
    names: &Topology,
    first: LinkEnd,
    second: LinkEnd,
    writer: &mut ReportWriter,
    sink: &mut K,
) -> Result<(), Stop>
    ensures put { Puts result writer.old writer.new (K.written sink.old) (K.written sink.new) (passage_line names.now (Linked first second)) }
    ensures room { StaysWithin writer.old writer.new }
    ensures faults { K.faults sink.new ≡ count_after (is_failed result) (K.faults sink.old) }
{
    let mut line = Text::new(alloc);
    write_link(&mut line, names, first, second)?;
    writer.put(line.as_slice(), sink)?;
    Ok(())
}

/// The two ends of the link at an index of the order of links, from 0.
fn link_at(names: &Topology, place: usize) -> (LinkEnd, LinkEnd)
    requires { place < length names.now.links }
    ensures { slice_get names.now.links place ≡ Some (record { first = result.0; second = result.1 }) }
{
    let ((node, port), (far, far_port)) = names.link(place);
    let first = LinkEnd { node, port };
    let second = LinkEnd {
        node: far,
        port: far_port,
    };
    (first, second)
}

/// Puts the lines of all links, in their order.
pub(crate) fn tell_links<K: Sink>(
    alloc: Global,
    names: &Topology,
    writer: &mut ReportWriter,
    sink: &mut K,
) -> Result<(), Stop>
    ensures put { Puts result writer.old writer.new (K.written sink.old) (K.written sink.new) (passage_lines names.now (links_told names.now)) }
    ensures room { StaysWithin writer.old writer.new }
    ensures faults { K.faults sink.new ≡ count_after (is_failed result) (K.faults sink.old) }
{
    for place in 0..names.links() {
        let (first, second) = link_at(names, place);
        tell_link(alloc, names, first, second, writer, sink)?;
    }
    Ok(())
}

/// Appends the line of a cell that an event took from a port's queue, where it took one.
fn write_taken(
    out: &mut Text,
    names: &Topology,
    event: &Event,
    taken: Option<Standing>,
) -> Result<(), OutOfMemory>
    ensures { OnOk result (out.new ≡ out.old ++ passage_lines names.now (taken_told event.now taken)) }
{
    if taken.is_none() {
        return Ok(());
    }
    match event {
        Event::Carry(Place::Out(node, port)) => {
            let end = LinkEnd {
                node: *node,
                port: *port,
            };
            write_left(out, names, "take", end)
        }
        Event::Lose(Place::Out(node, port)) => {
            let end = LinkEnd {
                node: *node,
                port: *port,
            };
            write_left(out, names, "lost", end)
        }
        _ => Ok(()),
    }
}

/// Puts the line of a cell that an event took from a port's queue, where it took one.
fn tell_taken<K: Sink>(
    alloc: Global,
    names: &Topology,
    event: &Event,
    taken: Option<Standing>,
    writer: &mut ReportWriter,
    sink: &mut K,
) -> Result<(), Stop>
    ensures put { Puts result writer.old writer.new (K.written sink.old) (K.written sink.new) (passage_lines names.now (taken_told event.now taken)) }
    ensures room { StaysWithin writer.old writer.new }
    ensures faults { K.faults sink.new ≡ count_after (is_failed result) (K.faults sink.old) }
{
    let mut line = Text::new(alloc);
    write_taken(&mut line, names, event, taken)?;
    writer.put(line.as_slice(), sink)?;
    Ok(())
}

/// Puts the line of a cell that came to a port's queue, and before it that of its frame where it is due.
fn tell_cell<K: Sink>(
    alloc: Global,
    names: &Topology,
    ledger: &Ledger,
    told: &mut ToldMarks,
    standing: &Standing,
    writer: &mut ReportWriter,
    sink: &mut K,
) -> Result<(), Stop>
    ensures put { Puts result writer.old writer.new (K.written sink.old) (K.written sink.new) (passage_lines names.now (cell_told ledger.now.frames told.old standing.now.place standing.now.cell).passages) }
    ensures marks { OnOk result (told.new ≡ (cell_told ledger.now.frames told.old standing.now.place standing.now.cell).marks) }
    ensures room { StaysWithin writer.old writer.new }
    ensures faults { K.faults sink.new ≡ count_after (is_failed result) (K.faults sink.old) }
{
    let mut lines = Text::new(alloc);
    write_cell(&mut lines, names, ledger, told, standing)?;
    writer.put(lines.as_slice(), sink)?;
    Ok(())
}

/// Puts the lines of cells that came to queues, one after the other.
fn tell_cells<K: Sink>(
    alloc: Global,
    names: &Topology,
    ledger: &Ledger,
    told: &mut ToldMarks,
    cells: &[Standing],
    writer: &mut ReportWriter,
    sink: &mut K,
) -> Result<(), Stop>
    ensures put { Puts result writer.old writer.new (K.written sink.old) (K.written sink.new) (passage_lines names.now (cells_told ledger.now.frames told.old cells.now).passages) }
    ensures marks { OnOk result (told.new ≡ (cells_told ledger.now.frames told.old cells.now).marks) }
    ensures room { StaysWithin writer.old writer.new }
    ensures faults { K.faults sink.new ≡ count_after (is_failed result) (K.faults sink.old) }
{
    for standing in cells {
        tell_cell(alloc, names, ledger, told, standing, writer, sink)?;
    }
    Ok(())
}

/// Appends the line of a record that binds a channel; nothing of others.
fn write_bound(out: &mut Text, names: &Topology, item: &Record) -> Result<(), OutOfMemory>
    ensures { OnOk result (out.new ≡ out.old ++ passage_lines names.now (bind_told item.now)) }
{
    match item {
        Record::Bind {
            node,
            port,
            vci,
            flow,
        } => {
            let end = LinkEnd {
                node: *node,
                port: *port,
            };
            write_bind(out, names, end, *vci, flow)
        }
        _ => Ok(()),
    }
}

/// Puts the line of a record that binds a channel; nothing of others.
fn tell_binding<K: Sink>(
    alloc: Global,
    names: &Topology,
    item: &Record,
    writer: &mut ReportWriter,
    sink: &mut K,
) -> Result<(), Stop>
    ensures put { Puts result writer.old writer.new (K.written sink.old) (K.written sink.new) (passage_lines names.now (bind_told item.now)) }
    ensures room { StaysWithin writer.old writer.new }
    ensures faults { K.faults sink.new ≡ count_after (is_failed result) (K.faults sink.old) }
{
    let mut line = Text::new(alloc);
    write_bound(&mut line, names, item)?;
    writer.put(line.as_slice(), sink)?;
    Ok(())
}

/// Puts the lines of the channels that were bound, in the order of their records.
fn tell_bindings<K: Sink>(
    alloc: Global,
    names: &Topology,
    records: &[Record],
    writer: &mut ReportWriter,
    sink: &mut K,
) -> Result<(), Stop>
    ensures put { Puts result writer.old writer.new (K.written sink.old) (K.written sink.new) (passage_lines names.now (flat_map bind_told records.now)) }
    ensures room { StaysWithin writer.old writer.new }
    ensures faults { K.faults sink.new ≡ count_after (is_failed result) (K.faults sink.old) }
{
    for item in records {
        tell_binding(alloc, names, item, writer, sink)?;
    }
    Ok(())
}

/// What passed in an event.
#[derive(Drop)]
pub(crate) struct Passed<'a> {
    /// The event.
    pub(crate) event: &'a Event,
    /// The cell that it took.
    pub(crate) taken: Option<Standing>,
    /// The cells that it put.
    pub(crate) cells: &'a [Standing],
    /// The notes behind it: its records, and the frames that were made by then.
    pub(crate) notes: &'a Notes,
}

/// Puts the lines of an event: of the cell that it took, of those that it put, and of what it bound.
pub(crate) fn tell_event<K: Sink>(
    alloc: Global,
    names: &Topology,
    passed: &Passed<'_>,
    told: &mut ToldMarks,
    writer: &mut ReportWriter,
    sink: &mut K,
) -> Result<(), Stop>
    ensures put { Puts result writer.old writer.new (K.written sink.old) (K.written sink.new) (passage_lines names.now (event_passed told.old passed.now.event.now passed.now.taken passed.now.cells.now passed.now.notes.now).passages) }
    ensures marks { OnOk result (told.new ≡ (event_passed told.old passed.now.event.now passed.now.taken passed.now.cells.now passed.now.notes.now).marks) }
    ensures room { StaysWithin writer.old writer.new }
    ensures faults { K.faults sink.new ≡ count_after (is_failed result) (K.faults sink.old) }
{
    let ledger = passed.notes.ledger();
    let records = passed.notes.records();
    tell_taken(alloc, names, passed.event, passed.taken, writer, sink)?;
    tell_cells(alloc, names, ledger, told, passed.cells, writer, sink)?;
    tell_bindings(alloc, names, records, writer, sink)
}

/// Appends that the trace is whole, or what was refused.
fn write_last(out: &mut Text, refused: Option<Refused>) -> Result<(), OutOfMemory>
    ensures { OnOk result (out.new ≡ out.old ++ last_line_by (line_of (codes "end" ∷ [])) refused) }
{
    match refused {
        None => out.text("end\n"),
        Some(refused) => write_refused(out, refused),
    }
}

/// Puts the last line: that the trace is whole, or what was refused.
pub(crate) fn tell_last<K: Sink>(
    alloc: Global,
    refused: Option<Refused>,
    writer: &mut ReportWriter,
    sink: &mut K,
) -> Result<(), Stop>
    ensures put { Puts result writer.old writer.new (K.written sink.old) (K.written sink.new) (last_line_by (line_of (codes "end" ∷ [])) refused) }
    ensures room { StaysWithin writer.old writer.new }
    ensures faults { K.faults sink.new ≡ count_after (is_failed result) (K.faults sink.old) }
{
    let mut line = Text::new(alloc);
    write_last(&mut line, refused)?;
    writer.put(line.as_slice(), sink)?;
    Ok(())
}
