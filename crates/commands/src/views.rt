//! Runs of scripts of which something else is told than their report.

ghost use Rattle.std.specs.Prelude.{◌≡◌, ℕ, List, Some, IfOk};
ghost use Rattle.commands.specs.declared.task.Task.TheVariants as Task;
ghost use Rattle.commands.specs.Ending.{task_ending};
ghost use Rattle.commands.specs.Fault.{MeetsOutside};
ghost use Rattle.commands.specs.Run.{HasRun, KeepsMeter};

use crate::ending::ending_by;
use crate::fault::RunFault;
use crate::task::View;
use lab_io::{Sink, Source};
use line_by_line::Ending;
use script_replay::tell_script;
use std::alloc::Global;
use tell_capture::CaptureTeller;
use tell_journal::JournalTeller;
use tell_show::show_teller;
use tell_trace::TraceTeller;
use world::Meter;

/// Runs a script as it is read, line by line, writes what is told of it, and tells how that ends: by
/// whether a line of it is refused. The first fault ends it.
pub fn run_view<S: Source, K: Sink>(
    alloc: Global,
    view: View,
    source: &mut S,
    sink: &mut K,
    meter: &mut Meter,
) -> Result<Ending, RunFault>
    ensures ran { HasRun (Task.View view) (S.left source.old) (S.left source.new) (K.written sink.old) (K.written sink.new) meter.old meter.new result }
    ensures complete { IfOk result (λ ending. (input : List ℕ) → S.left source.old ≡ Some input → ending ≡ task_ending (Task.View view) input) }
    ensures metered { KeepsMeter (Task.View view) (S.left source.old) meter.old meter.new }
    ensures outside { MeetsOutside result (S.faults source.old) (S.faults source.new) (K.faults sink.old) (K.faults sink.new) (S.said_end source.old) (S.late_reads source.old) (S.late_reads source.new) }
{
    let refused = match view {
        View::Trace => tell_script(alloc, TraceTeller::new(alloc), source, sink, meter)?,
        View::Show => tell_script(alloc, show_teller(alloc), source, sink, meter)?,
        View::Journal => tell_script(alloc, JournalTeller::new(alloc), source, sink, meter)?,
        View::Capture => tell_script(alloc, CaptureTeller::new(alloc), source, sink, meter)?,
    };
    Ok(ending_by(refused))
}
