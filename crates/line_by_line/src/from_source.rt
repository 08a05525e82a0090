//! From a source to a sink.

ghost use Rattle.std.specs.Prelude.{◌≡◌, ◌≤◌, ℕ, List, [], Option, Some, true, false, length, IfOk, IfErr};
ghost use Rattle.std.specs.Io.KnownBytes.{Appends};
ghost use Rattle.lab_io.specs.Fault.{count_after};
ghost use Rattle.lab_io.specs.Report.{Writer};
ghost use Rattle.line_by_line.specs.Account.{Account};
ghost use Rattle.line_by_line.specs.Faults.{is_read_fault, is_write_fault};
ghost use Rattle.line_by_line.specs.Report.{IsAccountOf, IsDone, IsLeft};
ghost use Rattle.line_by_line.specs.Reading.{Finished, Finishes};

use crate::fault::LineFault;
use crate::line_run::LineRun;
use crate::task::LineTask;
use lab_io::{Failed, ReportWriter, Sink, Source};
use std::alloc::Global;

/// Writes what is held of a report, but where a read or a write failed. After want of memory that is
/// told, but where this write fails.
fn finish<O: Copy, K: Sink>(
    outcome: Result<O, LineFault>,
    writer: &mut ReportWriter,
    sink: &mut K,
) -> Result<O, LineFault>
    ensures finished { (account : List (List ℕ) → Account O) (first : Writer) (start from left : Option (List ℕ)) → first.held ≡ [] → length writer.old.held ≤ 65536 → Finishes account first start from outcome writer.old left (K.written sink.old) → Finished account start from result left (K.written sink.new) }
    ensures held { is_read_fault outcome ≡ false → is_write_fault result ≡ false → Appends (K.written sink.old) (K.written sink.new) writer.old.held }
    ensures read { is_read_fault result ≡ is_read_fault outcome }
    ensures write { is_write_fault outcome ≡ false → K.faults sink.new ≡ count_after (is_write_fault result) (K.faults sink.old) }
    ensures stuck { is_write_fault outcome ≡ true → (is_write_fault result ≡ true) × (K.faults sink.new ≡ K.faults sink.old) }
{
    match outcome {
        Ok(outcome) => match writer.flush(sink) {
            Ok(()) => Ok(outcome),
            Err(Failed) => Err(LineFault::Write),
        },
        Err(LineFault::OutOfMemory(error)) => match writer.flush(sink) {
            Ok(()) => Err(LineFault::OutOfMemory(error)),
            Err(Failed) => Err(LineFault::Write),
        },
        Err(LineFault::Read) => Err(LineFault::Read),
        Err(LineFault::Write) => Err(LineFault::Write),
    }
}

/// Tells `task` the lines that `source` gives, reading them one by one, and writes its report to `sink`
/// as it grows. A line ends at an LF or where the source does. The first line that ends the task is the
/// last that it is told, and nothing behind it is asked for. The first fault ends it too; after want of
/// memory what is held of the report is still written. A source that said its end is read no more. Takes
/// 65,536 octets for what is read, and as many for what is written, before it reads.
pub fn run_lines<T: LineTask, S: Source, K: Sink>(
    alloc: Global,
    task: &mut T,
    source: &mut S,
    sink: &mut K,
) -> Result<T::Outcome, LineFault>
    requires going { T.can_go task.old }
    requires unread { T.octets task.old ≡ 0 }
    ensures done { IfOk result (IsDone (T.account task.old) (S.left source.old) (S.left source.new) (K.written sink.old) (K.written sink.new)) }
    ensures complete { IfOk result (λ outcome. (input : List ℕ) → S.left source.old ≡ Some input → IsAccountOf (T.account task.old) input outcome (K.written sink.old) (K.written sink.new)) }

    // A fault is told, and what it leaves is a front of the report.
    ensures left { IfErr result (λ fault. IsLeft fault (T.account task.old) (S.left source.old) (S.left source.new) (K.written sink.old) (K.written sink.new)) }
    ensures read { S.faults source.new ≡ count_after (is_read_fault result) (S.faults source.old) }
    ensures write { K.faults sink.new ≡ count_after (is_write_fault result) (K.faults sink.old) }
    ensures late { S.said_end source.old ≡ false → S.late_reads source.new ≡ S.late_reads source.old }
{
    let mut run = LineRun::open(alloc)?;
    let outcome = run.take_all(task, source, sink);
    finish(outcome, &mut run.writer, sink)
}
