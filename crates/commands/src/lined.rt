//! Inputs whose lines are taken one by one, up to the line that settles what is made of them.

ghost use Rattle.std.specs.Prelude.{◌≡◌, ℕ, List, Some, false, IfOk, IfErr};
ghost use Rattle.lab_io.specs.Fault.{count_after};
ghost use Rattle.line_by_line.specs.Report.{IsDone};
ghost use Rattle.commands.specs.Fault.{read_failed, write_failed};
ghost use Rattle.commands.specs.declared.task.Task.TheVariants as Task;
ghost use Rattle.commands.specs.Lined.{lined_account, lined_ending};
ghost use Rattle.commands.specs.Run.{Leaves};

use crate::fault::RunFault;
use crate::task::Lined;
use audit_run::{accounts_are_audits, audit};
use console_run::{accounts_are_sessions, console};
use lab_io::{Sink, Source};
use line_by_line::Ending;
use std::alloc::Global;

/// Takes the lines of an input one by one, writes what is made of them, and tells how that ends. The
/// first fault ends it.
pub fn run_lined<S: Source, K: Sink>(
    alloc: Global,
    lined: Lined,
    source: &mut S,
    sink: &mut K,
) -> Result<Ending, RunFault>
    ensures done { IfOk result (IsDone (lined_account lined) (S.left source.old) (S.left source.new) (K.written sink.old) (K.written sink.new)) }
    ensures complete { IfOk result (λ ending. (input : List ℕ) → S.left source.old ≡ Some input → ending ≡ lined_ending lined input) }
    ensures left { IfErr result (λ fault. Leaves fault (Task.Lined lined) (S.left source.old) (S.left source.new) (K.written sink.old) (K.written sink.new)) }
    ensures read { S.faults source.new ≡ count_after (read_failed result) (S.faults source.old) }
    ensures write { K.faults sink.new ≡ count_after (write_failed result) (K.faults sink.old) }
    ensures late { S.said_end source.old ≡ false → S.late_reads source.new ≡ S.late_reads source.old }
{
    accounts_are_audits();
    accounts_are_sessions();
    match lined {
        Lined::Audit => Ok(audit(alloc, source, sink)?),
        Lined::Console => Ok(console(alloc, source, sink)?),
    }
}
