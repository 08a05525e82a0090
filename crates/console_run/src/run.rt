//! The command.

ghost use Rattle.std.specs.Prelude.{◌≡◌, ℕ, List, Some, false, IfOk, IfErr};
ghost use Rattle.lab_io.specs.Fault.{count_after};
ghost use Rattle.line_by_line.specs.Faults.{is_read_fault, is_write_fault};
ghost use Rattle.line_by_line.specs.Report.{IsAccountOf, IsDone, IsLeft};
ghost use Rattle.console_run.specs.Report.{console_account};

use crate::task::ConsoleTask;
use lab_io::{Sink, Source};
use line_by_line::{Ending, LineFault, run_lines};
use std::alloc::Global;

/// Plays the session that `source` holds, reading it line by line up to its end or to the first line that is
/// refused, and writes its report to `sink` as it grows: the chances of each event and then the commands
/// that are answered in it, and last how many commands and answers and branches there are (`Done`), or
/// `refused`, the number of a line and why (`Refused`). The first fault ends it; after a failed read or want
/// of memory no last line is written. A source that said its end is read no more.
pub fn console<S: Source, K: Sink>(
    alloc: Global,
    source: &mut S,
    sink: &mut K,
) -> Result<Ending, LineFault>
    ensures late { S.said_end source.old ≡ false → S.late_reads source.new ≡ S.late_reads source.old }
    ensures read { S.faults source.new ≡ count_after (is_read_fault result) (S.faults source.old) }
    ensures done { IfOk result (IsDone console_account (S.left source.old) (S.left source.new) (K.written sink.old) (K.written sink.new)) }
    ensures complete { IfOk result (λ ending. (input : List ℕ) → S.left source.old ≡ Some input → IsAccountOf console_account input ending (K.written sink.old) (K.written sink.new)) }
    ensures left { IfErr result (λ fault. IsLeft fault console_account (S.left source.old) (S.left source.new) (K.written sink.old) (K.written sink.new)) }
    ensures write { K.faults sink.new ≡ count_after (is_write_fault result) (K.faults sink.old) }
{
    let mut task = ConsoleTask::new(alloc);
    let outcome = run_lines(alloc, &mut task, source, sink);
    task.abandon();
    outcome
}
