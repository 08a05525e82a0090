//! A task that writes each line again, up to one that begins with `stop`.

use lab_io::{ReportWriter, Sink, Stop};
use line_by_line::{Ending, LineTask, Step};

/// So many octets the lines had that it took.
#[derive(Drop)]
pub(crate) struct Echo {
    pub(crate) octets: usize,
}

impl LineTask for Echo {
    ghost use Rattle.line_tests.specs.Echo.{echoed};
    ghost use Rattle.std.specs.Prelude.{refl};

    type Outcome = Ending;

    ghost account = { λ echo. echoed echo.octets };

    ghost octets = { λ echo. echo.octets };

    fn line<K: Sink>(
        &mut self,
        line: &[u8],
        writer: &mut ReportWriter,
        sink: &mut K,
    ) -> Result<Step<Ending>, Stop> {
        if line.starts_with(b"stop") {
            writer.put(b"stopped\n", sink)?;
            return Ok(Step::Ends(Ending::Denied));
        }
        writer.put(line, sink)?;
        self.octets += line.len();
        Ok(Step::Goes)
    }

    fn too_long<K: Sink>(
        &mut self,
        writer: &mut ReportWriter,
        sink: &mut K,
    ) -> Result<Ending, Stop> {
        writer.put(b"long\n", sink)?;
        Ok(Ending::Refused)
    }

    fn past_end<K: Sink>(
        &mut self,
        writer: &mut ReportWriter,
        sink: &mut K,
    ) -> Result<Ending, Stop> {
        writer.put(b"past\n", sink)?;
        Ok(Ending::Refused)
    }

    fn end<K: Sink>(&mut self, writer: &mut ReportWriter, sink: &mut K) -> Result<Ending, Stop> {
        writer.put(b"end\n", sink)?;
        Ok(Ending::Done)
    }

    ghost is_open = { λ echo. record { body = refl; is_ended = refl } };
}
