//! The one line of a report.

ghost use Rattle.std.specs.Prelude.{◌≡◌, ◌++◌, OnOk};
ghost use Rattle.trace_model.specs.Audit.{outcome_line, Yes, Breaks, Refuses, Unended};
ghost use Rattle.audit_run.specs.Task.{outcome_of};

use crate::names::{breach_name, refusal_name};
use crate::outcome::AuditOutcome;
use lab_text::Text;
use net_types::OutOfMemory;
use trace_audit::{AuditCounts, Breach, TraceRefusal};

/// Writes that the trace is good, and how many links, puts and bindings it has.
fn write_yes(out: &mut Text, counts: AuditCounts) -> Result<(), OutOfMemory>
    ensures { OnOk result (out.new ≡ out.old ++ outcome_line (Yes counts.links counts.puts counts.binds)) }
{
    out.text("yes links ")?;
    out.number(counts.links)?;
    out.text(" puts ")?;
    out.number(counts.puts)?;
    out.text(" binds ")?;
    out.number(counts.binds)?;
    out.text("\n")
}

/// Writes which line shows that the trace isn't good, and how.
fn write_breach(out: &mut Text, number: u64, breach: Breach) -> Result<(), OutOfMemory>
    ensures { OnOk result (out.new ≡ out.old ++ outcome_line (Breaks number breach)) }
{
    out.text("no ")?;
    out.number(number)?;
    out.text(" ")?;
    out.text(breach_name(breach))?;
    out.text("\n")
}

/// Writes which line is refused, and why.
fn write_refused(out: &mut Text, number: u64, refusal: TraceRefusal) -> Result<(), OutOfMemory>
    ensures { OnOk result (out.new ≡ out.old ++ outcome_line (Refuses number refusal)) }
{
    out.text("refused ")?;
    out.number(number)?;
    out.text(" ")?;
    out.text(refusal_name(refusal))?;
    out.text("\n")
}

/// Writes that the input ends before `end`, at the line with this number.
fn write_unended(out: &mut Text, number: u64) -> Result<(), OutOfMemory>
    ensures { OnOk result (out.new ≡ out.old ++ outcome_line (Unended number)) }
{
    out.text("refused ")?;
    out.number(number)?;
    out.text(" NoEnd\n")
}

/// Writes what an audit comes to.
pub(crate) fn write_outcome(out: &mut Text, outcome: AuditOutcome) -> Result<(), OutOfMemory>
    ensures { OnOk result (out.new ≡ out.old ++ outcome_line (outcome_of outcome)) }
{
    match outcome {
        AuditOutcome::Yes(counts) => write_yes(out, counts),
        AuditOutcome::Breaks { number, breach } => write_breach(out, number, breach),
        AuditOutcome::Refuses { number, refusal } => write_refused(out, number, refusal),
        AuditOutcome::Unended { number } => write_unended(out, number),
    }
}
