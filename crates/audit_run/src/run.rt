//! The command.

ghost use Rattle.std.specs.Prelude.{◌≡◌, ℕ, List, Some, false, IfOk, IfErr};
ghost use Rattle.lab_io.specs.Fault.{count_after};
ghost use Rattle.line_by_line.specs.Faults.{is_read_fault, is_write_fault};
ghost use Rattle.line_by_line.specs.Report.{IsAccountOf, IsDone, IsLeft};
ghost use Rattle.audit_run.specs.Audit.{audit_account};

use crate::task::AuditTask;
use lab_io::{Sink, Source};
use line_by_line::{Ending, LineFault, run_lines};
use std::alloc::Global;

/// Audits the trace that `source` holds, reading it line by line up to the line that settles it, and
/// writes the verdict to `sink` as one line: `yes` and three counts where the trace is good (`Done`),
/// `no`, the number of a line and what is wrong with it (`Denied`), or `refused`, the number of a line
/// and why (`Refused`). The first fault ends it; behind want of memory and a failed read no verdict is
/// written. A source that said its end is read no more.
pub fn audit<S: Source, K: Sink>(
    alloc: Global,
    source: &mut S,
    sink: &mut K,
) -> Result<Ending, LineFault>
    ensures done { IfOk result (IsDone audit_account (S.left source.old) (S.left source.new) (K.written sink.old) (K.written sink.new)) }
    ensures complete { IfOk result (λ ending. (input : List ℕ) → S.left source.old ≡ Some input → IsAccountOf audit_account input ending (K.written sink.old) (K.written sink.new)) }
    ensures left { IfErr result (λ fault. IsLeft fault audit_account (S.left source.old) (S.left source.new) (K.written sink.old) (K.written sink.new)) }
    ensures read { S.faults source.new ≡ count_after (is_read_fault result) (S.faults source.old) }
    ensures write { K.faults sink.new ≡ count_after (is_write_fault result) (K.faults sink.old) }
    ensures late { S.said_end source.old ≡ false → S.late_reads source.new ≡ S.late_reads source.old }
{
    let mut task = AuditTask::open(alloc)?;
    run_lines(alloc, &mut task, source, sink)
}
