//! The commands over any source and any sink.

ghost use Rattle.std.specs.Prelude.{◌≡◌, ◌≢◌, ◌⊎◌, ◌≤◌, ◌==◌, ℕ, List, Some, false, is_err, IfOk, OnOk};
ghost use Rattle.std.specs.Io.KnownBytes.{Appends};
ghost use Rattle.lab_io.specs.Fault.{Rose, count_after};
ghost use Rattle.lab_io.specs.Transfer.{AppendsFront};
ghost use Rattle.line_by_line.specs.declared.task.Ending.{Ending};
ghost use Rattle.commands.specs.declared.task.Task.{Task};
ghost use Rattle.commands.specs.declared.task.Task.TheVariants.{Drill};
ghost use Rattle.commands.specs.Ending.{task_ending, ending_status, status_of};
ghost use Rattle.commands.specs.Fault.{MeetsOutside};
ghost use Rattle.commands.specs.Run.{HasDone, HasRun, IsAnswered, IsCutOff, IsCutShort, IsGivenUp, KeepsMeter, LeavesAtWant, LeavesFront, LeavesUnread};
ghost use Rattle.commands.specs.Task.{AskForNone, AskForTask, usage_line};

use crate::ending::{NO_MEMORY, USAGE, WRITE_FAULT, ending_status, fault_status};
use crate::fault::RunFault;
use crate::lined::run_lined;
use crate::networks::{run_document, run_drill, run_script};
use crate::task::{Task, read_task};
use crate::views::run_view;
use crate::whole::run_whole;
use command_line::Word;
use lab_io::{Failed, Sink, Source, write_all};
use line_by_line::Ending;
use std::alloc::Global;
use world::Meter;

const USAGE_LINE: &str =
    "usage: ipswitch replay|replay toml|ideal|decode ifmp|decode gsmp|drill N|rules|trace|audit|console|show|journal|capture\n";

fn write_usage<K: Sink>(sink: &mut K) -> Result<(), Failed>
    ensures faults { K.faults sink.new ≡ count_after (is_err result) (K.faults sink.old) }
    ensures ok { OnOk result (Appends (K.written sink.old) (K.written sink.new) usage_line) }
    ensures front { AppendsFront (K.written sink.old) (K.written sink.new) usage_line }
{
    write_all(sink, USAGE_LINE.as_bytes())
}

/// Carries out a task, and tells how it ends. The first fault ends it.
fn run_task<S: Source, K: Sink>(
    alloc: Global,
    task: Task,
    source: &mut S,
    sink: &mut K,
    meter: &mut Meter,
) -> Result<Ending, RunFault>
    ensures ran { HasRun task (S.left source.old) (S.left source.new) (K.written sink.old) (K.written sink.new) meter.old meter.new result }
    ensures complete { IfOk result (λ ending. (input : List ℕ) → S.left source.old ≡ Some input → ending ≡ task_ending task input) }
    ensures metered { KeepsMeter task (S.left source.old) meter.old meter.new }
    ensures outside { MeetsOutside result (S.faults source.old) (S.faults source.new) (K.faults sink.old) (K.faults sink.new) (S.said_end source.old) (S.late_reads source.old) (S.late_reads source.new) }
    ensures undrilled { (number : ℕ) → task ≡ Drill number → source.new ≡ source.old }
{
    match task {
        Task::Replay => run_script(alloc, source, sink, meter),
        Task::View(view) => run_view(alloc, view, source, sink, meter),
        Task::Document => run_document(alloc, source, sink, meter),
        Task::Drill(number) => run_drill(alloc, number, sink, meter),
        Task::Whole(whole) => run_whole(alloc, whole, source, sink),
        Task::Lined(lined) => run_lined(alloc, lined, source, sink),
    }
}

/// Carries out a task, and gives its status.
fn task_status<S: Source, K: Sink>(
    alloc: Global,
    task: Task,
    source: &mut S,
    sink: &mut K,
    meter: &mut Meter,
) -> u8
    ensures answered { (ending : Ending) → result ≡ ending_status ending → HasDone task (S.left source.old) (S.left source.new) (K.written sink.old) (K.written sink.new) meter.old meter.new ending }
    ensures metered { KeepsMeter task (S.left source.old) meter.old meter.new }
    ensures read { S.faults source.new ≡ count_after (result == 3) (S.faults source.old) }
    ensures write { K.faults sink.new ≡ count_after (result == 4) (K.faults sink.old) }
    ensures unread { result ≡ 3 → LeavesUnread task (S.left source.old) (S.left source.new) (K.written sink.old) (K.written sink.new) }
    ensures cut { result ≡ 4 → LeavesFront task (S.left source.old) (S.left source.new) (K.written sink.old) (K.written sink.new) }
    ensures want { result ≡ 5 → LeavesAtWant task (S.left source.old) (S.left source.new) (K.written sink.old) (K.written sink.new) }
    ensures complete { (input : List ℕ) → S.left source.old ≡ Some input → (Rose (S.faults source.old) (S.faults source.new) → ⊥) → (Rose (K.faults sink.old) (K.faults sink.new) → ⊥) → (result ≡ status_of task input) ⊎ (result ≡ 5) }
    ensures range { result ≤ 6 }
    ensures asked { result ≢ 1 }
    ensures undrilled { (number : ℕ) → task ≡ Drill number → source.new ≡ source.old }
    ensures late { S.said_end source.old ≡ false → S.late_reads source.new ≡ S.late_reads source.old }
{
    match run_task(alloc, task, source, sink, meter) {
        Ok(ending) => ending_status(ending),
        Err(fault) => fault_status(fault),
    }
}

/// Runs the command that the words ask for, reads its input from `source`, writes its output to
/// `sink`, and gives the status: 0 done, 1 usage, 2 a line is refused, 3 a read failed, 4 a write
/// failed, 5 want of memory, 6 a trace isn't good. The first fault ends the run. A source that said its end is
/// read no more. The meter counts the events of a replay: whatever the status, it is at one of them, or as it
/// was before the first.
#[tactic(auto, using(crate::proofs::Asked::asks_for, crate::proofs::Asked::asks_for_none, crate::proofs::Asked::asks_for_some, crate::proofs::Asked::asks_for_one))]
pub fn run<S: Source, K: Sink>(
    alloc: Global,
    words: &[Word],
    source: &mut S,
    sink: &mut K,
    meter: &mut Meter,
) -> u8
    ensures usage { result ≡ 1 → AskForNone words.now × Appends (K.written sink.old) (K.written sink.new) usage_line }
    ensures usage_only { AskForNone words.now → (result ≡ 1) ⊎ ((result ≡ 4) ⊎ (result ≡ 5)) }
    ensures unread { AskForNone words.now → (source.new ≡ source.old) × (meter.new ≡ meter.old) }
    ensures undrilled { (number : ℕ) → AskForTask words.now (Drill number) → source.new ≡ source.old }
    ensures answered { (ending : Ending) → result ≡ ending_status ending → IsAnswered words.now (S.left source.old) (S.left source.new) (K.written sink.old) (K.written sink.new) meter.old meter.new ending }

    // A fault of the outside ends the run and is told, and what it leaves is a front of the output.
    ensures read { S.faults source.new ≡ count_after (result == 3) (S.faults source.old) }
    ensures write { K.faults sink.new ≡ count_after (result == 4) (K.faults sink.old) }
    ensures cut_off { result ≡ 3 → IsCutOff words.now (S.left source.old) (S.left source.new) (K.written sink.old) (K.written sink.new) }
    ensures cut { result ≡ 4 → IsCutShort words.now (S.left source.old) (S.left source.new) (K.written sink.old) (K.written sink.new) }
    ensures given_up { result ≡ 5 → IsGivenUp words.now (S.left source.old) (S.left source.new) (K.written sink.old) (K.written sink.new) }

    // Whatever the status.
    ensures metered { (task : Task) → AskForTask words.now task → KeepsMeter task (S.left source.old) meter.old meter.new }

    // With an input and no fault the status is the input's, want of memory aside.
    ensures complete { (task : Task) (input : List ℕ) → AskForTask words.now task → S.left source.old ≡ Some input → (Rose (S.faults source.old) (S.faults source.new) → ⊥) → (Rose (K.faults sink.old) (K.faults sink.new) → ⊥) → (result ≡ status_of task input) ⊎ (result ≡ 5) }
    ensures range { result ≤ 6 }

    ensures late { S.said_end source.old ≡ false → S.late_reads source.new ≡ S.late_reads source.old }
{
    match read_task(alloc, words) {
        Err(_) => NO_MEMORY,
        Ok(None) => match write_usage(sink) {
            Ok(()) => USAGE,
            Err(Failed) => WRITE_FAULT,
        },
        Ok(Some(task)) => task_status(alloc, task, source, sink, meter),
    }
}
