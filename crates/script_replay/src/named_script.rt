//! From a source to a sink.

ghost use Rattle.std.specs.Prelude.{◌≡◌, ℕ, List, Some, false, is_some, IfOk, IfErr};
ghost use Rattle.lab_io.specs.Fault.{count_after};
ghost use Rattle.script_model.specs.Script.{script_of};
ghost use Rattle.world_model.specs.Topology.{policy_of};
ghost use Rattle.line_by_line.specs.Faults.{is_read_fault, is_write_fault};
ghost use Rattle.script_replay.specs.Report.{IsDone, IsLeft, IsMeteredFrom, account_by, body_by, report_by, telling_by};

use crate::choice::{ByName, NamedController};
use crate::from_source::{replay, tell};
use lab_io::{Sink, Source};
use line_by_line::LineFault;
use network_run::Teller;
use std::alloc::Global;
use world::Meter;

/// Replays the script that `source` gives, reading it line by line, and writes its report to `sink` as it
/// grows. Tells whether a line of it is refused: then nothing behind that line is read. The first fault
/// ends the replay; after want of memory what is held of the report is still written. A source that said its
/// end is read no more. The meter counts the events: whatever the result, it is at one of them, or as it
/// was before the first.
pub fn replay_script<S: Source, K: Sink>(
    alloc: Global,
    source: &mut S,
    sink: &mut K,
    meter: &mut Meter,
) -> Result<bool, LineFault>
    ensures done { IfOk result (IsDone policy_of (report_by policy_of) (S.left source.old) (S.left source.new) (K.written sink.old) (K.written sink.new) meter.old meter.new) }
    ensures complete { IfOk result (λ refused. (input : List ℕ) → S.left source.old ≡ Some input → refused ≡ is_some (script_of input).refused) }

    // A fault is told, and what it leaves is a front of the report.
    ensures left { IfErr result (λ fault. IsLeft fault (report_by policy_of) (body_by policy_of) (S.left source.old) (S.left source.new) (K.written sink.old) (K.written sink.new)) }
    ensures read { S.faults source.new ≡ count_after (is_read_fault result) (S.faults source.old) }
    ensures write { K.faults sink.new ≡ count_after (is_write_fault result) (K.faults sink.old) }

    // Whatever the result.
    ensures metered { IsMeteredFrom policy_of (S.left source.old) meter.old meter.new }
    ensures late { S.said_end source.old ≡ false → S.late_reads source.new ≡ S.late_reads source.old }
{
    replay::<NamedController, ByName, S, K>(alloc, &ByName, source, sink, meter)
}

/// Runs the script that `source` gives, as [`replay_script`] does, and writes what `teller` tells of it to
/// `sink` as it grows: a front of it where a fault ends the run.
pub fn tell_script<T: Teller<NamedController> + Drop, S: Source, K: Sink>(
    alloc: Global,
    teller: T,
    source: &mut S,
    sink: &mut K,
    meter: &mut Meter,
) -> Result<bool, LineFault>
    ensures done { IfOk result (IsDone policy_of (account_by T.tale policy_of) (S.left source.old) (S.left source.new) (K.written sink.old) (K.written sink.new) meter.old meter.new) }
    ensures complete { IfOk result (λ refused. (input : List ℕ) → S.left source.old ≡ Some input → refused ≡ is_some (script_of input).refused) }

    // A fault is told, and what it leaves is a front of the account.
    ensures left { IfErr result (λ fault. IsLeft fault (account_by T.tale policy_of) (telling_by T.tale policy_of) (S.left source.old) (S.left source.new) (K.written sink.old) (K.written sink.new)) }
    ensures read { S.faults source.new ≡ count_after (is_read_fault result) (S.faults source.old) }
    ensures write { K.faults sink.new ≡ count_after (is_write_fault result) (K.faults sink.old) }

    // Whatever the result.
    ensures metered { IsMeteredFrom policy_of (S.left source.old) meter.old meter.new }
    ensures late { S.said_end source.old ≡ false → S.late_reads source.new ≡ S.late_reads source.old }
{
    tell::<NamedController, ByName, T, S, K>(alloc, &ByName, teller, source, sink, meter)
}
