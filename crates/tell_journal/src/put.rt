//! Lines on their way to a report.

ghost use Rattle.std.specs.Prelude.{◌≡◌, ℕ, List, IfOk};
ghost use Rattle.lab_io.specs.Fault.{count_after};
ghost use Rattle.lab_io.specs.Puts.{Puts, StaysWithin, is_failed};

use lab_io::{ReportWriter, Sink, Stop};
use lab_text::Text;
use net_types::OutOfMemory;

/// Puts a line, where there was memory for it.
pub(crate) fn put_line<K: Sink>(
    line: Result<Text, OutOfMemory>,
    writer: &mut ReportWriter,
    sink: &mut K,
) -> Result<(), Stop>
    ensures put { (octets : List ℕ) → IfOk line (λ text. text ≡ octets) → Puts result writer.old writer.new (K.written sink.old) (K.written sink.new) octets }
    ensures room { StaysWithin writer.old writer.new }
    ensures faults { K.faults sink.new ≡ count_after (is_failed result) (K.faults sink.old) }
{
    let line = line?;
    writer.put(line.as_slice(), sink)?;
    Ok(())
}
