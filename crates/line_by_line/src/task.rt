//! What is told an input line by line, and makes a report of it.

use lab_io::{ReportWriter, Sink, Stop};

/// The outcome of a command's task: how it ends, where no fault ended it. This project's own.
#[derive(Clone, Copy, Debug, PartialEq, Eq)]
pub enum Ending {
    /// The input was read to its end, and nothing in it is refused.
    Done,
    /// Something in the input is refused.
    Refused,
    /// The input was read as far as it goes, and found wanting.
    Denied,
}

/// The control flow behind a line: another one may follow, or the task ends with an outcome `O`.
#[derive(Clone, Copy, Debug, PartialEq, Eq)]
pub enum Step<O> {
    /// Another may follow.
    Goes,
    /// The task is at its end, and the last line of the report is put.
    Ends(O),
}

/// A processor of lines of text (a task): it takes the lines of an input one by one, up to the
/// first that ends it, and puts its report as it goes: what each line causes, and one part at last.
/// What it is is seen by what it makes of the lines that are still to come. After `Ends`, after
/// [`LineTask::too_long`], [`LineTask::past_end`] and [`LineTask::end`], and after [`Stop`] it is
/// told nothing more. This project's own.
pub trait LineTask {
    ghost use Rattle.std.specs.Prelude.{◌≡◌, ◌+◌, ◌<◌, ◌≤◌, ℕ, List, [], Ok, length};
    ghost use Rattle.lab_io.specs.Fault.{count_after};
    ghost use Rattle.lab_text.specs.Line.{input_limit, line_limit};
    ghost use Rattle.lab_text.specs.Words.{line_text};
    ghost use Rattle.line_by_line.specs.declared.task.Step.TheVariants.{Goes as More};
    ghost use Rattle.line_by_line.specs.Account.{Account, IsOpen};
    ghost use Rattle.lab_io.specs.Puts.{StaysWithin, is_failed};
    ghost use Rattle.line_by_line.specs.Steps.{Concludes, IsPast, IsTooLong, Settles, Takes};

    /// How it ends.
    type Outcome: Copy;

    // What it makes of the lines to come, as far as they are read.
    ghost account: { Self → List (List ℕ) → Account Self.Outcome };

    // How many octets the lines have that it took.
    ghost octets: { Self → ℕ };

    // It can be told of another line, or of the end.
    ghost can_go: { Self → Type 0 } = { λ _. Unit {0} };

    /// Takes a line, with its LF where it has one. Only the last line of an input lacks it.
    fn line<K: Sink>(
        &mut self,
        line: &[u8],
        writer: &mut ReportWriter,
        sink: &mut K,
    ) -> Result<Step<Self::Outcome>, Stop>
        requires going { can_go self.old }
        requires some { 0 < length line.now }
        requires short { length (line_text line.now) ≤ line_limit }
        requires within { octets self.old + length line.now < input_limit }
        ensures taken { Takes (account self.old) (account self.new) line.now result writer.old writer.new (K.written sink.old) (K.written sink.new) }
        ensures going { result ≡ Ok More → can_go self.new }
        ensures octets { result ≡ Ok More → octets self.new ≡ octets self.old + length line.now }
        ensures room { StaysWithin writer.old writer.new }
        ensures faults { K.faults sink.new ≡ count_after (is_failed result) (K.faults sink.old) };

    /// A line comes that has more than 4,096 octets, its LF or CR LF not counted. Its octets aren't
    /// kept, so what it leads to is the same for all such lines.
    fn too_long<K: Sink>(
        &mut self,
        writer: &mut ReportWriter,
        sink: &mut K,
    ) -> Result<Self::Outcome, Stop>
        requires { can_go self.old }
        ensures settled { (line : List ℕ) → IsTooLong (octets self.old) line → Settles (account self.old) line result writer.old writer.new (K.written sink.old) (K.written sink.new) }
        ensures room { StaysWithin writer.old writer.new }
        ensures faults { K.faults sink.new ≡ count_after (is_failed result) (K.faults sink.old) };

    /// A line comes that holds octet 16,777,217 of the input. Its octets aren't kept, so what it leads
    /// to is the same for all such lines.
    fn past_end<K: Sink>(
        &mut self,
        writer: &mut ReportWriter,
        sink: &mut K,
    ) -> Result<Self::Outcome, Stop>
        requires { can_go self.old }
        ensures settled { (line : List ℕ) → IsPast (octets self.old) line → Settles (account self.old) line result writer.old writer.new (K.written sink.old) (K.written sink.new) }
        ensures room { StaysWithin writer.old writer.new }
        ensures faults { K.faults sink.new ≡ count_after (is_failed result) (K.faults sink.old) };

    /// No line is left.
    fn end<K: Sink>(
        &mut self,
        writer: &mut ReportWriter,
        sink: &mut K,
    ) -> Result<Self::Outcome, Stop>
        requires { can_go self.old }
        ensures ended { Concludes (account self.old []) result writer.old writer.new (K.written sink.old) (K.written sink.new) }
        ensures room { StaysWithin writer.old writer.new }
        ensures faults { K.faults sink.new ≡ count_after (is_failed result) (K.faults sink.old) };

    // Where no line comes, nothing is written but the last part.
    ghost is_open: { (task : Self) → IsOpen (account task []) };
}
