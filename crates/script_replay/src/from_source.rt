//! From a source to a sink.

ghost use Rattle.std.specs.Prelude.{◌≡◌, ◌≤◌, List, [], ℕ, Option, Some, true, false, length, is_some, IfOk, IfErr};
ghost use Rattle.std.specs.Io.KnownBytes.{Appends};
ghost use Rattle.lab_io.specs.Fault.{count_after};
ghost use Rattle.lab_io.specs.Report.{Writer};
ghost use Rattle.port_model.specs.Setup.{Policy};
ghost use Rattle.script_model.specs.Script.{Script, script_of};
ghost use Rattle.line_by_line.specs.Faults.{is_read_fault, is_write_fault};
ghost use Rattle.network_run.specs.telling_model.Placed.{Placed};
ghost use Rattle.world.specs.declared.counts.Meter.{Meter as Reading};
ghost use Rattle.world_model.specs.Topology.{Topology as Described};
ghost use Rattle.script_replay.specs.Report.{Finished, IsDone, IsLeft, IsMeteredFrom, account_by, body_by, report_by, telling_by};
ghost use Rattle.script_replay.specs.Reading.{Tells};

use crate::script_run::ScriptRun;
use lab_io::{Failed, Sink, Source};
use line_by_line::LineFault;
use network_replay::PolicyChoice;
use network_run::Teller;
use script_model::Refused;
use std::alloc::Global;
use tell_report::{ReportLines, report_lines};
use world::{Meter, NodeController};

/// Writes what is held of what was told. After want of memory that is answered, but where the write
/// fails.
fn finish<C: NodeController, T: Teller<C> + Drop, K: Sink>(
    run: ScriptRun<C, T>,
    outcome: Result<Option<Refused>, LineFault>,
    sink: &mut K,
) -> Result<bool, LineFault>
    ensures finished { (choice : Described → Policy) (account body : Script → List Placed → List ℕ) (first : Writer) (start from left : Option (List ℕ)) (before meter : Reading) → first.held ≡ [] → length run.told.writer.held ≤ 65536 → Tells choice account body first start before from outcome run.told.writer left (K.written sink.old) meter → Finished choice account body start before from result left (K.written sink.new) meter }
    ensures held { is_read_fault outcome ≡ false → is_write_fault result ≡ false → Appends (K.written sink.old) (K.written sink.new) run.told.writer.held }
    ensures read { is_read_fault result ≡ is_read_fault outcome }
    ensures write { is_write_fault outcome ≡ false → K.faults sink.new ≡ count_after (is_write_fault result) (K.faults sink.old) }
    ensures stuck { is_write_fault outcome ≡ true → (is_write_fault result ≡ true) × (K.faults sink.new ≡ K.faults sink.old) }
{
    match outcome {
        Ok(refused) => match run.finish(sink) {
            Ok(()) => Ok(refused.is_some()),
            Err(Failed) => Err(LineFault::Write),
        },
        Err(LineFault::OutOfMemory(error)) => match run.finish(sink) {
            Ok(()) => Err(LineFault::OutOfMemory(error)),
            Err(Failed) => Err(LineFault::Write),
        },
        Err(LineFault::Read) => {
            run.abandon();
            Err(LineFault::Read)
        }
        Err(LineFault::Write) => {
            run.abandon();
            Err(LineFault::Write)
        }
    }
}

/// Runs the script that `source` gives, reading it line by line, and writes what `teller` tells of it to
/// `sink` as it grows. Tells whether a line of it is refused: then nothing behind that line is read. The
/// first fault ends the run; after want of memory what is held of what was told is still written. A source
/// that said its end is read no more. The meter counts the events: whatever the result, it is at one of
/// them, or as it was before the first.
pub fn tell<C: NodeController, N: PolicyChoice<C>, T: Teller<C> + Drop, S: Source, K: Sink>(
    alloc: Global,
    choice: &N,
    teller: T,
    source: &mut S,
    sink: &mut K,
    meter: &mut Meter,
) -> Result<bool, LineFault>
    ensures done { IfOk result (IsDone (N.chosen choice.now) (account_by T.tale (N.chosen choice.now)) (S.left source.old) (S.left source.new) (K.written sink.old) (K.written sink.new) meter.old meter.new) }
    ensures complete { IfOk result (λ refused. (input : List ℕ) → S.left source.old ≡ Some input → refused ≡ is_some (script_of input).refused) }

    // A fault is told, and what it leaves is a front of the account.
    ensures left { IfErr result (λ fault. IsLeft fault (account_by T.tale (N.chosen choice.now)) (telling_by T.tale (N.chosen choice.now)) (S.left source.old) (S.left source.new) (K.written sink.old) (K.written sink.new)) }
    ensures read { S.faults source.new ≡ count_after (is_read_fault result) (S.faults source.old) }
    ensures write { K.faults sink.new ≡ count_after (is_write_fault result) (K.faults sink.old) }

    // Whatever the result.
    ensures metered { IsMeteredFrom (N.chosen choice.now) (S.left source.old) meter.old meter.new }
    ensures late { S.said_end source.old ≡ false → S.late_reads source.new ≡ S.late_reads source.old }
{
    let mut run: ScriptRun<C, T> = ScriptRun::open(alloc, teller)?;
    let outcome = run.replay(choice, source, sink, meter);
    finish(run, outcome, sink)
}

/// Replays the script that `source` gives, as [`tell`] does, and writes its report to `sink`.
pub fn replay<C: NodeController, N: PolicyChoice<C>, S: Source, K: Sink>(
    alloc: Global,
    choice: &N,
    source: &mut S,
    sink: &mut K,
    meter: &mut Meter,
) -> Result<bool, LineFault>
    ensures done { IfOk result (IsDone (N.chosen choice.now) (report_by (N.chosen choice.now)) (S.left source.old) (S.left source.new) (K.written sink.old) (K.written sink.new) meter.old meter.new) }
    ensures complete { IfOk result (λ refused. (input : List ℕ) → S.left source.old ≡ Some input → refused ≡ is_some (script_of input).refused) }

    // A fault is told, and what it leaves is a front of the report.
    ensures left { IfErr result (λ fault. IsLeft fault (report_by (N.chosen choice.now)) (body_by (N.chosen choice.now)) (S.left source.old) (S.left source.new) (K.written sink.old) (K.written sink.new)) }
    ensures read { S.faults source.new ≡ count_after (is_read_fault result) (S.faults source.old) }
    ensures write { K.faults sink.new ≡ count_after (is_write_fault result) (K.faults sink.old) }

    // Whatever the result.
    ensures metered { IsMeteredFrom (N.chosen choice.now) (S.left source.old) meter.old meter.new }
    ensures late { S.said_end source.old ≡ false → S.late_reads source.new ≡ S.late_reads source.old }
{
    let teller = report_lines(alloc);
    tell::<C, N, ReportLines, S, K>(alloc, choice, teller, source, sink, meter)
}
