//! Replays of scripts, of documents and of drills.

ghost use Rattle.std.specs.Prelude.{◌≡◌, ℕ, false, List, Option, Some, IfOk, IfErr};
ghost use Rattle.lab_io.specs.Fault.{count_after};
ghost use Rattle.commands.specs.declared.task.Task.TheVariants.{Replay, Document, Drill};
ghost use Rattle.commands.specs.Ending.{task_ending};
ghost use Rattle.commands.specs.Fault.{MeetsOutside, read_failed, write_failed};
ghost use Rattle.commands.specs.Run.{HasDone, HasRun, KeepsMeter, Leaves};

use crate::ending::ending_by;
use crate::fault::RunFault;
use lab_io::{Sink, Source, read_to_end};
use lab_text::INPUT_LIMIT;
use line_by_line::Ending;
use script_replay::{replay_document, replay_drill, replay_script};
use std::alloc::Global;
use world::Meter;

/// Replays a script as it is read, line by line, and tells how that ends: by whether a line of it is
/// refused. The first fault ends it.
pub fn run_script<S: Source, K: Sink>(
    alloc: Global,
    source: &mut S,
    sink: &mut K,
    meter: &mut Meter,
) -> Result<Ending, RunFault>
    ensures ran { HasRun Replay (S.left source.old) (S.left source.new) (K.written sink.old) (K.written sink.new) meter.old meter.new result }
    ensures complete { IfOk result (λ ending. (input : List ℕ) → S.left source.old ≡ Some input → ending ≡ task_ending Replay input) }
    ensures metered { KeepsMeter Replay (S.left source.old) meter.old meter.new }
    ensures outside { MeetsOutside result (S.faults source.old) (S.faults source.new) (K.faults sink.old) (K.faults sink.new) (S.said_end source.old) (S.late_reads source.old) (S.late_reads source.new) }
{
    Ok(ending_by(replay_script(alloc, source, sink, meter)?))
}

/// Reads a document, replays the script that it is, and tells how that ends: by whether something in it
/// is refused, the document as a whole, or a line. The first fault ends it.
pub fn run_document<S: Source, K: Sink>(
    alloc: Global,
    source: &mut S,
    sink: &mut K,
    meter: &mut Meter,
) -> Result<Ending, RunFault>
    ensures ran { HasRun Document (S.left source.old) (S.left source.new) (K.written sink.old) (K.written sink.new) meter.old meter.new result }
    ensures complete { IfOk result (λ ending. (input : List ℕ) → S.left source.old ≡ Some input → ending ≡ task_ending Document input) }
    ensures metered { KeepsMeter Document (S.left source.old) meter.old meter.new }
    ensures outside { MeetsOutside result (S.faults source.old) (S.faults source.new) (K.faults sink.old) (K.faults sink.new) (S.said_end source.old) (S.late_reads source.old) (S.late_reads source.new) }
{
    let input = read_to_end(alloc, source, INPUT_LIMIT)?;
    let refused = replay_document(alloc, input.as_slice(), sink, meter)?;
    Ok(ending_by(refused))
}

/// Replays the drill with this number, and tells how that ends: by whether a line of its script is
/// refused. The first fault ends it.
pub fn run_drill<K: Sink>(
    alloc: Global,
    number: u32,
    sink: &mut K,
    meter: &mut Meter,
) -> Result<Ending, RunFault>
    ensures done { (left : Option (List ℕ)) → IfOk result (HasDone (Drill number) left left (K.written sink.old) (K.written sink.new) meter.old meter.new) }
    ensures complete { IfOk result (λ ending. (input : List ℕ) → ending ≡ task_ending (Drill number) input) }
    ensures left { (left : Option (List ℕ)) → IfErr result (λ fault. Leaves fault (Drill number) left left (K.written sink.old) (K.written sink.new)) }
    ensures metered { (left : Option (List ℕ)) → KeepsMeter (Drill number) left meter.old meter.new }
    ensures read { read_failed result ≡ false }
    ensures write { K.faults sink.new ≡ count_after (write_failed result) (K.faults sink.old) }
{
    Ok(ending_by(replay_drill(alloc, number, sink, meter)?))
}
