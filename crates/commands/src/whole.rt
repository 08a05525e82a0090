//! Inputs that are read as a whole, before a report is written.

ghost use Rattle.std.specs.Prelude.{◌≡◌, ◌≤◌, ℕ, List, Some, false, IfOk, IfErr, length};
ghost use Rattle.lab_io.specs.Fault.{count_after};
ghost use Rattle.lab_text.specs.Line.{input_limit};
ghost use Rattle.commands.specs.Fault.{read_failed, write_failed};
ghost use Rattle.commands.specs.declared.task.Task.TheVariants as Task;
ghost use Rattle.commands.specs.declared.task.Whole.TheVariants as whole;
ghost use Rattle.commands.specs.Ending.{task_ending, is_refused};
ghost use Rattle.commands.specs.Run.{EndsBy, IsDone, IsReport, Leaves};

use crate::ending::ending_by;
use crate::fault::RunFault;
use crate::task::Whole;
use ideal_fates::ideal;
use lab_io::{Failed, Sink, Source, read_to_end, write_all};
use lab_text::INPUT_LIMIT;
use line_by_line::Ending;
use message_text::{Protocol, list_messages};
use net_types::{Octets, OutOfMemory};
use rule_report::judge_rules;
use std::alloc::Global;

/// A report, and whether a line of its input was refused.
#[derive(Debug, Drop)]
struct Report {
    octets: Octets,
    is_refused: bool,
}

fn report_of_ideal(alloc: Global, input: &[u8]) -> Result<Report, OutOfMemory>
    requires { length input.now ≤ input_limit }
    ensures report { IfOk result (λ report. IsReport whole.Ideal input.now report.octets) }
    ensures refused { IfOk result (λ report. report.is_refused ≡ is_refused (Task.Whole whole.Ideal) input.now) }
{
    let told = ideal(alloc, input)?;
    Ok(Report {
        octets: told.report,
        is_refused: told.is_refused,
    })
}

fn report_of_messages(
    alloc: Global,
    protocol: Protocol,
    input: &[u8],
) -> Result<Report, OutOfMemory>
    requires { length input.now ≤ input_limit }
    ensures report { IfOk result (λ report. IsReport (whole.Decode protocol) input.now report.octets) }
    ensures refused { IfOk result (λ report. report.is_refused ≡ is_refused (Task.Whole (whole.Decode protocol)) input.now) }
{
    let listed = list_messages(alloc, protocol, input)?;
    Ok(Report {
        octets: listed.text,
        is_refused: listed.is_refused,
    })
}

fn report_of_rules(alloc: Global, input: &[u8]) -> Result<Report, OutOfMemory>
    ensures report { IfOk result (λ report. IsReport whole.Rules input.now report.octets) }
    ensures refused { IfOk result (λ report. report.is_refused ≡ is_refused (Task.Whole whole.Rules) input.now) }
{
    let judged = judge_rules(alloc, input)?;
    Ok(Report {
        octets: judged.report,
        is_refused: judged.is_refused,
    })
}

/// What is made of an input.
fn report_on(alloc: Global, whole: Whole, input: &[u8]) -> Result<Report, OutOfMemory>
    requires { length input.now ≤ input_limit }
    ensures report { IfOk result (λ report. IsReport whole input.now report.octets) }
    ensures refused { IfOk result (λ report. report.is_refused ≡ is_refused (Task.Whole whole) input.now) }
{
    match whole {
        Whole::Ideal => report_of_ideal(alloc, input),
        Whole::Decode(protocol) => report_of_messages(alloc, protocol, input),
        Whole::Rules => report_of_rules(alloc, input),
    }
}

/// Reads an input, writes its report, and tells how that ends: by whether a line of the input is refused.
/// The first fault ends it.
pub fn run_whole<S: Source, K: Sink>(
    alloc: Global,
    whole: Whole,
    source: &mut S,
    sink: &mut K,
) -> Result<Ending, RunFault>
    ensures done { IfOk result (EndsBy (IsDone whole (S.left source.old) (S.left source.new) (K.written sink.old) (K.written sink.new))) }
    ensures complete { IfOk result (λ ending. (input : List ℕ) → S.left source.old ≡ Some input → ending ≡ task_ending (Task.Whole whole) input) }
    ensures left { IfErr result (λ fault. Leaves fault (Task.Whole whole) (S.left source.old) (S.left source.new) (K.written sink.old) (K.written sink.new)) }
    ensures read { S.faults source.new ≡ count_after (read_failed result) (S.faults source.old) }
    ensures write { K.faults sink.new ≡ count_after (write_failed result) (K.faults sink.old) }
    ensures late { S.said_end source.old ≡ false → S.late_reads source.new ≡ S.late_reads source.old }
{
    let input = read_to_end(alloc, source, INPUT_LIMIT)?;
    let report = report_on(alloc, whole, input.as_slice())?;
    match write_all(sink, report.octets.as_slice()) {
        Ok(()) => Ok(ending_by(report.is_refused)),
        Err(Failed) => Err(RunFault::Write),
    }
}
