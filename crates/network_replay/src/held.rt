//! What is held, written.

ghost use Rattle.std.specs.Prelude.{◌≡◌, ℕ, List, Option, [], false};
ghost use Rattle.std.specs.Io.KnownBytes.{Appends};
ghost use Rattle.lab_io.specs.Fault.{count_after};
ghost use Rattle.lab_io.specs.Report.{Writer};
ghost use Rattle.lab_io.specs.Puts.{Puts, is_failed};
ghost use Rattle.network_replay.specs.Ending.{EndsAs, Tells};

use lab_io::{Failed, ReportWriter, Sink, Stop};
use script_model::Refused;

/// Writes what is held of a report that was put, also where memory was wanting for more of it; behind a
/// failed write nothing is written. Tells whether something was refused.
pub fn settle<K: Sink>(
    outcome: Result<Option<Refused>, Stop>,
    writer: &mut ReportWriter,
    sink: &mut K,
) -> Result<bool, Stop>
    ensures written { (first : Writer) (start : Option (List ℕ)) (report : List ℕ) → first.held ≡ [] → Puts outcome first writer.old start (K.written sink.old) report → EndsAs result start (K.written sink.new) report }
    ensures held { is_failed result ≡ false → Appends (K.written sink.old) (K.written sink.new) writer.old.held }
    ensures refused { Tells outcome result }
    ensures faults { (before : ℕ) → K.faults sink.old ≡ count_after (is_failed outcome) before → K.faults sink.new ≡ count_after (is_failed result) before }
{
    match outcome {
        Ok(refused) => {
            writer.flush(sink)?;
            Ok(refused.is_some())
        }
        Err(Stop::OutOfMemory(error)) => match writer.flush(sink) {
            Ok(()) => Err(Stop::OutOfMemory(error)),
            Err(Failed) => Err(Stop::Failed),
        },
        Err(Stop::Failed) => Err(Stop::Failed),
    }
}
