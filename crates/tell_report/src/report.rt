//! The teller of a replay.

use crate::end_line::last_line;
use crate::lines::put_records;
use lab_io::{ReportWriter, Sink, Stop};
use link_model::Record;
use network_run::{EndTeller, Ended, PlainTeller, RecordTeller};
use std::alloc::Global;
use topology::Topology;
use world::{NodeController, World};

/// An observer's parts that write a report, of events and of the end: lines are made in this memory.
/// This project's own.
#[derive(Clone, Copy, Debug, Drop)]
pub struct ReportParts {
    alloc: Global,
}

impl RecordTeller for ReportParts {
    ghost use Rattle.std.specs.Prelude.{refl};
    ghost use Rattle.record_text.specs.script_model.Reports.{record_lines};

    ghost lines = { record_lines };

    ghost nothing = { λ _. refl };

    fn tell_records<K: Sink>(
        &self,
        records: &[Record],
        names: &Topology,
        writer: &mut ReportWriter,
        sink: &mut K,
    ) -> Result<(), Stop> {
        put_records(self.alloc, records, names, writer, sink)
    }
}

impl<C: NodeController> EndTeller<C> for ReportParts {
    ghost use Rattle.tell_report.specs.Report.{report_end};

    ghost last = { report_end };

    fn tell_end<K: Sink>(
        &self,
        world: &World<C>,
        _names: &Topology,
        ended: Ended,
        writer: &mut ReportWriter,
        sink: &mut K,
    ) -> Result<(), Stop> {
        let line = last_line(self.alloc, ended, &world.counts())?;
        writer.put(line.as_slice(), sink)?;
        Ok(())
    }
}

/// An observer that writes the event log of a run (its report): the lines of the records of each
/// event, and the last line. This project's own.
pub type ReportLines = PlainTeller<ReportParts, ReportParts>;

/// Who writes a report. Lines are made in this memory.
pub fn report_lines(alloc: Global) -> ReportLines {
    let parts = ReportParts { alloc };
    PlainTeller::new(parts, parts)
}
