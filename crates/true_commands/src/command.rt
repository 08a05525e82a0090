//! The commands, and what is true of the runs that they replay.

ghost use Rattle.std.specs.Prelude.{◌≡◌, ◌⊎◌, ◌≤◌, ◌==◌, ℕ, List, Some, false};
ghost use Rattle.std.specs.Io.KnownBytes.{Appends};
ghost use Rattle.lab_io.specs.Fault.{Rose, count_after};
ghost use Rattle.line_by_line.specs.declared.task.Ending.{Ending};
ghost use Rattle.commands.specs.declared.task.Task.{Task};
ghost use Rattle.commands.specs.declared.task.Task.TheVariants.{Drill};
ghost use Rattle.commands.specs.Ending as endings;
ghost use Rattle.commands.specs.Run as runs;
ghost use Rattle.commands.specs.Task as asked;
ghost use Rattle.true_commands.specs.Law.{IsTrueTask};
ghost use Rattle.true_commands.specs.Told.{HasTrueLines};

use crate::laws::{outputs_are_true, tasks_are_true};
use command_line::Word;
use lab_io::{Sink, Source};
use std::alloc::Global;
use world::Meter;

/// Runs the command that the words ask for, reads its input from `source`, writes its output to `sink`, and
/// gives the status: 0 done, 1 usage, 2 a line is refused, 3 a read failed, 4 a write failed, 5 want of
/// memory, 6 a trace isn't good. The first fault ends the run. A source that said its end is read no more.
/// The meter counts the events of a replay: whatever the status, it is at one of them, or as it was before
/// the first. What a replay reports is the run of a script, and of each such run the clause `headline` says
/// what is true: cut-through changes nothing of what routing makes of packets. Of a trace it says what it
/// means that the audit says yes. The clause `lines` says of each line that a replay wrote, whatever the
/// status, that what it claims is so.
pub fn run<S: Source, K: Sink>(
    alloc: Global,
    words: &[Word],
    source: &mut S,
    sink: &mut K,
    meter: &mut Meter,
) -> u8
    ensures usage { result ≡ 1 → asked.AskForNone words.now × Appends (K.written sink.old) (K.written sink.new) asked.usage_line }
    ensures usage_only { asked.AskForNone words.now → (result ≡ 1) ⊎ ((result ≡ 4) ⊎ (result ≡ 5)) }
    ensures unread { asked.AskForNone words.now → (source.new ≡ source.old) × (meter.new ≡ meter.old) }
    ensures undrilled { (number : ℕ) → asked.AskForTask words.now (Drill number) → source.new ≡ source.old }
    ensures answered { (ending : Ending) → result ≡ endings.ending_status ending → runs.IsAnswered words.now (S.left source.old) (S.left source.new) (K.written sink.old) (K.written sink.new) meter.old meter.new ending }

    // A fault of the outside ends the run and is told, and what it leaves is a front of the output.
    ensures read { S.faults source.new ≡ count_after (result == 3) (S.faults source.old) }
    ensures write { K.faults sink.new ≡ count_after (result == 4) (K.faults sink.old) }
    ensures cut_off { result ≡ 3 → runs.IsCutOff words.now (S.left source.old) (S.left source.new) (K.written sink.old) (K.written sink.new) }
    ensures cut { result ≡ 4 → runs.IsCutShort words.now (S.left source.old) (S.left source.new) (K.written sink.old) (K.written sink.new) }
    ensures given_up { result ≡ 5 → runs.IsGivenUp words.now (S.left source.old) (S.left source.new) (K.written sink.old) (K.written sink.new) }

    // Whatever the status.
    ensures metered { (task : Task) → asked.AskForTask words.now task → runs.KeepsMeter task (S.left source.old) meter.old meter.new }

    // With an input and no fault the status is the input's, want of memory aside.
    ensures complete { (task : Task) (input : List ℕ) → asked.AskForTask words.now task → S.left source.old ≡ Some input → (Rose (S.faults source.old) (S.faults source.new) → ⊥) → (Rose (K.faults sink.old) (K.faults sink.new) → ⊥) → (result ≡ endings.status_of task input) ⊎ (result ≡ 5) }
    ensures range { result ≤ 6 }

    ensures late { S.said_end source.old ≡ false → S.late_reads source.new ≡ S.late_reads source.old }

    // And what is replayed is true to routing, and what is audited with yes is clean.
    ensures headline { (task : Task) (input : List ℕ) → asked.AskForTask words.now task → IsTrueTask task input }

    // Whatever the status: each whole line that a replay wrote is a line of the run of the script that the octets which it
    // read begin with, and what it claims is so.
    ensures lines { (task : Task) → asked.AskForTask words.now task → HasTrueLines task (S.left source.old) (S.left source.new) (K.written sink.old) (K.written sink.new) }
{
    tasks_are_true();
    outputs_are_true();
    commands::run(alloc, words, source, sink, meter)
}
