//! From a drill to the last line of its report.

ghost use Rattle.std.specs.Prelude.{◌≡◌, List, is_some, IfOk, OnOk};
ghost use Rattle.lab_io.specs.Fault.{count_after};
ghost use Rattle.lab_io.specs.Puts.{is_failed};
ghost use Rattle.network_replay.specs.Along.{IsGoing, IsMetered, IsWhole};
ghost use Rattle.network_replay.specs.Ending.{EndsAs};
ghost use Rattle.script_model.specs.Drill.{drill_script};
ghost use Rattle.script_model.specs.Reports.{last_line};
ghost use Rattle.script_model.specs.Script.{Script};
ghost use Rattle.telling_model.specs.Placed.{Placed};
ghost use Rattle.script_replay.specs.Drill.{meter_by, report_by};

use crate::drill_lines::take_lines;
use lab_io::{ReportWriter, Sink, Stop};
use network_replay::{PolicyChoice, Replay, settle};
use network_run::Told;
use script_model::Refused;
use std::alloc::Global;
use tell_report::report_lines;
use world::{Meter, NodeController};

/// So many octets of the last line are held.
const ROOM: usize = 4096;

/// Writes the last line of a replay, and tells whether a line was refused.
fn write_last<C: NodeController, N: PolicyChoice<C>, K: Sink>(
    alloc: Global,
    replay: &mut Replay<C>,
    refused: Option<Refused>,
    choice: &N,
    sink: &mut K,
) -> Result<bool, Stop>
    requires going { IsGoing C.seen (N.chosen choice.now) replay.old }
    ensures written { (script : Script) (placed : List Placed) → IsWhole C.seen (N.chosen choice.now) script placed refused replay.old → EndsAs result (K.written sink.old) (K.written sink.new) (last_line (N.chosen choice.now script.topology) script) }
    ensures refused { IfOk result (λ found. found ≡ is_some refused) }
    ensures faults { K.faults sink.new ≡ count_after (is_failed result) (K.faults sink.old) }
{
    let writer = ReportWriter::open(alloc, ROOM)?;
    let teller = report_lines(alloc);
    let mut told = Told { teller, writer };
    let outcome = match replay.end(refused, choice, &mut told, sink) {
        Ok(()) => Ok(refused),
        Err(stop) => Err(stop),
    };
    settle(outcome, &mut told.writer, sink)
}

/// Replays the script of the drill with this number, and writes the last line of its report to `sink`.
/// Tells whether a line of it is refused. The first fault ends the replay. The meter counts the events:
/// whatever the result, it is at one of them, or as it was before the first.
pub fn replay_drill<C: NodeController, N: PolicyChoice<C>, K: Sink>(
    alloc: Global,
    drill: u32,
    choice: &N,
    sink: &mut K,
    meter: &mut Meter,
) -> Result<bool, Stop>
    ensures written { EndsAs result (K.written sink.old) (K.written sink.new) (report_by (N.chosen choice.now) (drill_script drill)) }
    ensures refused { IfOk result (λ refused. refused ≡ is_some (drill_script drill).refused) }
    ensures meter { OnOk result (meter.new ≡ meter_by (N.chosen choice.now) meter.old (drill_script drill)) }
    ensures metered { IsMetered (N.chosen choice.now) meter.old (drill_script drill) meter.new }
    ensures faults { K.faults sink.new ≡ count_after (is_failed result) (K.faults sink.old) }
{
    let mut replay: Replay<C> = Replay::open(alloc)?;
    let outcome = match take_lines(alloc, &mut replay, drill, choice, meter) {
        Ok(refused) => write_last(alloc, &mut replay, refused, choice, sink),
        Err(stop) => Err(stop),
    };
    replay.abandon();
    outcome
}
