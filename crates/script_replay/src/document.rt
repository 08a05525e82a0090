//! From a document that is read to its report.

ghost use Rattle.std.specs.Prelude.{◌≡◌, true, is_some, IfOk, OnOk};
ghost use Rattle.lab_io.specs.Fault.{count_after};
ghost use Rattle.lab_io.specs.Puts.{is_failed};
ghost use Rattle.network_replay.specs.Along.{IsMetered};
ghost use Rattle.network_replay.specs.Ending.{EndsAs};
ghost use Rattle.script_model.specs.Reports.{refused_line};
ghost use Rattle.script_replay.specs.DocumentLines.{meter_by, report_by, script_behind_rules};

use crate::document_lines::put_report;
use document_text::Lines;
use lab_io::{ReportWriter, Sink, Stop, write_all};
use lab_text::Text;
use line_by_line::ROOM;
use network_replay::{PolicyChoice, Replay, settle};
use network_run::Told;
use record_text::write_refused;
use script_model::Refused;
use std::alloc::Global;
use tell_report::report_lines;
use world::{Meter, NodeController};

/// Writes the report of a document that is refused before the first line of its script: as a whole, or
/// for a rule. The first fault ends it.
pub fn refuse<K: Sink>(alloc: Global, refused: Refused, sink: &mut K) -> Result<bool, Stop>
    ensures written { EndsAs result (K.written sink.old) (K.written sink.new) (refused_line refused) }
    ensures refused { IfOk result (λ told. told ≡ true) }
    ensures faults { K.faults sink.new ≡ count_after (is_failed result) (K.faults sink.old) }
{
    let mut line = Text::new(alloc);
    write_refused(&mut line, refused)?;
    write_all(sink, line.as_slice())?;
    Ok(true)
}

/// Replays the script of a document, whose lines stand behind its rules, and writes its report to `sink`
/// as it grows. Tells whether a line of it is refused. The first fault ends the replay; after want of
/// memory what is held of the report is still written. The meter counts the events: whatever the result, it
/// is at one of them, or as it was before the first.
pub fn replay_lines<C: NodeController, N: PolicyChoice<C>, K: Sink>(
    alloc: Global,
    lines: &Lines,
    choice: &N,
    sink: &mut K,
    meter: &mut Meter,
) -> Result<bool, Stop>
    ensures written { EndsAs result (K.written sink.old) (K.written sink.new) (report_by (N.chosen choice.now) (script_behind_rules lines.now)) }
    ensures refused { IfOk result (λ refused. refused ≡ is_some (script_behind_rules lines.now).refused) }
    ensures meter { OnOk result (meter.new ≡ meter_by (N.chosen choice.now) meter.old (script_behind_rules lines.now)) }
    ensures metered { IsMetered (N.chosen choice.now) meter.old (script_behind_rules lines.now) meter.new }
    ensures faults { K.faults sink.new ≡ count_after (is_failed result) (K.faults sink.old) }
{
    let writer = ReportWriter::open(alloc, ROOM)?;
    let teller = report_lines(alloc);
    let mut told = Told { teller, writer };
    let mut replay: Replay<C> = Replay::open(alloc)?;
    let outcome = put_report(&mut replay, lines, choice, &mut told, sink, meter);
    replay.abandon();
    settle(outcome, &mut told.writer, sink)
}
