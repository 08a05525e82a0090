//! The auditor as a task that takes lines.

use crate::outcome::AuditOutcome;
use crate::text::write_outcome;
use lab_io::{ReportWriter, Sink, Stop};
use lab_text::Text;
use line_by_line::{Ending, LineTask, Step};
use net_types::OutOfMemory;
use std::alloc::Global;
use trace_audit::{AuditFault, Auditor, Breach, TraceRefusal};

/// The auditor, and how many lines it took.
#[derive(Drop)]
pub(crate) struct AuditTask {
    pub(crate) alloc: Global,
    pub(crate) auditor: Auditor,
    pub(crate) lines: u32,
}

ghost use Rattle.std.specs.Prelude.{◌≡◌, ◌+◌};
ghost use Rattle.lab_io.specs.Fault.{count_after};
ghost use Rattle.lab_io.specs.Puts.{StaysWithin, is_failed};
ghost use Rattle.line_by_line.specs.Steps.{Concludes};
ghost use Rattle.trace_model.specs.Audit.{Breaks, Refuses, outcome_at_end};
ghost use Rattle.trace_audit.specs.Held.{known_by};
ghost use Rattle.audit_run.specs.Audit.{told};
ghost use Rattle.audit_run.specs.Task.{outcome_of};

impl AuditTask {
    ghost use Rattle.std.specs.Prelude.{IfOk, [], List, ℕ};
    ghost use Rattle.audit_run.specs.Task.{IsCounted, task_account, task_octets};
    ghost use Rattle.audit_run.specs.Audit.{audit_account};

    /// Nothing is read yet.
    pub(crate) fn open(alloc: Global) -> Result<AuditTask, OutOfMemory>
        ensures account { IfOk result (λ task. (lines : List (List ℕ)) → task_account task lines ≡ audit_account lines) }
        ensures octets { IfOk result (λ task. task_octets task ≡ 0) }
        ensures counted { IfOk result IsCounted }
    {
        let auditor = Auditor::open(alloc)?;
        Ok(AuditTask {
            alloc,
            auditor,
            lines: 0,
        })
    }

    /// The number of the next line.
    fn number(&self) -> u64
        ensures { result ≡ self.now.lines + 1 }
    {
        u64::from(self.lines) + 1
    }

    /// Puts what the audit comes to.
    fn conclude<K: Sink>(
        &self,
        outcome: AuditOutcome,
        writer: &mut ReportWriter,
        sink: &mut K,
    ) -> Result<Ending, Stop>
        ensures concluded { Concludes (told (outcome_of outcome)) result writer.old writer.new (K.written sink.old) (K.written sink.new) }
        ensures room { StaysWithin writer.old writer.new }
        ensures faults { K.faults sink.new ≡ count_after (is_failed result) (K.faults sink.old) }
    {
        let mut out = Text::new(self.alloc);
        write_outcome(&mut out, outcome)?;
        writer.put(out.as_slice(), sink)?;
        Ok(outcome.ending())
    }

    /// The next line is refused.
    fn refused(&self, refusal: TraceRefusal) -> AuditOutcome
        ensures { outcome_of result ≡ Refuses (self.now.lines + 1) refusal }
    {
        AuditOutcome::Refuses {
            number: self.number(),
            refusal,
        }
    }

    /// The next line shows that the trace isn't good.
    fn broken(&self, breach: Breach) -> AuditOutcome
        ensures { outcome_of result ≡ Breaks (self.now.lines + 1) breach }
    {
        AuditOutcome::Breaks {
            number: self.number(),
            breach,
        }
    }

    /// What the audit comes to where no line is left.
    fn at_end(&self) -> AuditOutcome
        ensures { outcome_of result ≡ outcome_at_end self.now.lines (known_by self.now.auditor) }
    {
        if self.auditor.ended() {
            AuditOutcome::Yes(self.auditor.counts())
        } else {
            AuditOutcome::Unended {
                number: self.number(),
            }
        }
    }
}

impl LineTask for AuditTask {
    ghost use Rattle.std.specs.Prelude.{refl};
    ghost use Rattle.audit_run.specs.Task.{IsCounted, none_ends, task_account, task_octets};

    type Outcome = Ending;

    ghost account = { task_account };

    ghost octets = { task_octets };

    ghost can_go = { IsCounted };

    fn line<K: Sink>(
        &mut self,
        line: &[u8],
        writer: &mut ReportWriter,
        sink: &mut K,
    ) -> Result<Step<Ending>, Stop> {
        match self.auditor.line(line) {
            Ok(trace_audit::Step::Good) => {
                self.lines += 1;
                Ok(Step::Goes)
            }
            Ok(trace_audit::Step::No(breach)) => {
                let ending = self.conclude(self.broken(breach), writer, sink)?;
                Ok(Step::Ends(ending))
            }
            Err(AuditFault::Refused(refusal)) => {
                let ending = self.conclude(self.refused(refusal), writer, sink)?;
                Ok(Step::Ends(ending))
            }
            Err(AuditFault::OutOfMemory(error)) => Err(Stop::OutOfMemory(error)),
        }
    }

    fn too_long<K: Sink>(
        &mut self,
        writer: &mut ReportWriter,
        sink: &mut K,
    ) -> Result<Ending, Stop> {
        self.conclude(self.refused(TraceRefusal::LineTooLong), writer, sink)
    }

    fn past_end<K: Sink>(
        &mut self,
        writer: &mut ReportWriter,
        sink: &mut K,
    ) -> Result<Ending, Stop> {
        self.conclude(self.refused(TraceRefusal::ScriptTooLong), writer, sink)
    }

    fn end<K: Sink>(&mut self, writer: &mut ReportWriter, sink: &mut K) -> Result<Ending, Stop> {
        self.conclude(self.at_end(), writer, sink)
    }

    ghost is_open = { λ task. record { body = refl; is_ended = none_ends task.lines (known_by task.auditor) } };
}
