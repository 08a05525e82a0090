//! The lines of records, put to a report.

ghost use Rattle.std.specs.Prelude.{◌≡◌};
ghost use Rattle.lab_io.specs.Fault.{count_after};
ghost use Rattle.record_text.specs.script_model.Records.{record_line};
ghost use Rattle.record_text.specs.script_model.Reports.{record_lines};
ghost use Rattle.lab_io.specs.Puts.{Puts, StaysWithin, is_failed};

use lab_io::{ReportWriter, Sink, Stop};
use lab_text::Text;
use link_model::Record;
use record_text::write_record;
use std::alloc::Global;
use topology::Topology;

/// Puts the line of a record.
fn put_record<K: Sink>(
    alloc: Global,
    item: &Record,
    names: &Topology,
    writer: &mut ReportWriter,
    sink: &mut K,
) -> Result<(), Stop>
    ensures put { Puts result writer.old writer.new (K.written sink.old) (K.written sink.new) (record_line names.now item.now) }
    ensures room { StaysWithin writer.old writer.new }
    ensures faults { K.faults sink.new ≡ count_after (is_failed result) (K.faults sink.old) }
{
    let mut line = Text::new(alloc);
    write_record(item, names, &mut line)?;
    writer.put(line.as_slice(), sink)?;
    Ok(())
}

/// Puts the lines of records.
pub fn put_records<K: Sink>(
    alloc: Global,
    records: &[Record],
    names: &Topology,
    writer: &mut ReportWriter,
    sink: &mut K,
) -> Result<(), Stop>
    ensures put { Puts result writer.old writer.new (K.written sink.old) (K.written sink.new) (record_lines names.now records.now) }
    ensures room { StaysWithin writer.old writer.new }
    ensures faults { K.faults sink.new ≡ count_after (is_failed result) (K.faults sink.old) }
{
    for item in records {
        put_record(alloc, item, names, writer, sink)?;
    }
    Ok(())
}
