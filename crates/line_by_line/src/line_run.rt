//! Lines from a source, one by one, into a task.

ghost use Rattle.std.specs.Prelude.{◌≡◌, ◌≤◌, ◌<◌, ◌+◌, ℕ, List, [], Option, Ok, IfOk, false, length, take, drop};
ghost use Rattle.lab_io.specs.Fault.{count_after};
ghost use Rattle.lab_io.specs.Reading.{KnowsEnd};
ghost use Rattle.lab_io.specs.Report.{Writer};
ghost use Rattle.lab_text.specs.Line.{input_limit, line_limit};
ghost use Rattle.lab_text.specs.Words.{line_text};
ghost use Rattle.line_by_line.specs.declared.task.Step.TheVariants.{Goes as More};
ghost use Rattle.line_by_line.specs.Account.{Account};
ghost use Rattle.line_by_line.specs.Faults.{ended_as, is_read_fault, is_write_fault};
ghost use Rattle.lab_io.specs.Puts.{StaysWithin, is_failed};
ghost use Rattle.line_by_line.specs.Reading.{Advances, Finishes, HasNext, IsAtLine, IsBegun, IsCounted, ends_line};

use crate::fault::LineFault;
use crate::task::{LineTask, Step};
use lab_io::{Failed, LineReader, NextLine, ReportWriter, Sink, Source, Stop};
use net_types::OutOfMemory;
use std::alloc::Global;

/// So many octets of the input are read ahead at most, and so many of the report are held.
pub const ROOM: usize = 65_536;

/// The reader of an input, and the writer of the report that is made of it.
#[derive(Drop)]
pub(crate) struct LineRun {
    pub(crate) reader: LineReader,
    pub(crate) writer: ReportWriter,
}

/// The line that stands here in the buffer.
fn line_at(reader: &LineReader, place: usize, len: usize) -> &[u8]
    requires { place + len ≤ length reader.now.buffer }
    ensures { result.now ≡ take len (drop place reader.now.buffer) }
{
    &reader.octets()[place..place + len]
}

/// Whether a line has its end.
fn ends_line(line: &[u8]) -> bool
    ensures { result ≡ ends_line line.now }
{
    matches!(line.last(), Some(b'\n'))
}

/// What the end of a task is among the steps to it.
fn ended<O>(outcome: Result<O, Stop>) -> Result<Step<O>, LineFault>
    ensures ended { result ≡ ended_as outcome }
    ensures read { is_read_fault result ≡ false }
    ensures write { is_write_fault result ≡ is_failed outcome }
{
    match outcome {
        Ok(outcome) => Ok(Step::Ends(outcome)),
        Err(stop) => Err(LineFault::from(stop)),
    }
}

impl LineRun {
    /// Nothing is read yet.
    pub(crate) fn open(alloc: Global) -> Result<LineRun, OutOfMemory>
        ensures { IfOk result IsBegun }
    {
        let reader = LineReader::open(alloc, ROOM)?;
        let writer = ReportWriter::open(alloc, ROOM)?;
        Ok(LineRun { reader, writer })
    }

    /// Takes the line that stands here in the buffer. One without its end is the last.
    fn take<T: LineTask, K: Sink>(
        &mut self,
        place: usize,
        len: usize,
        task: &mut T,
        sink: &mut K,
    ) -> Result<Step<T::Outcome>, LineFault>
        requires within { place + len ≤ length self.old.reader.buffer }
        requires going { T.can_go task.old }
        requires some { 0 < len }
        requires short { length (line_text (take len (drop place self.old.reader.buffer))) ≤ line_limit }
        requires room { T.octets task.old + len < input_limit }
        ensures taken { (account : List (List ℕ) → Account T.Outcome) (first : Writer) (start from left : Option (List ℕ)) → HasNext account first start from (take len (drop place self.old.reader.buffer)) (T.account task.old) self.old left (K.written sink.old) → Advances account first start from result (T.account task.new) self.new left (K.written sink.new) }
        ensures going { result ≡ Ok More → T.can_go task.new }
        ensures counted { result ≡ Ok More → T.octets task.new ≡ T.octets task.old + len }
        ensures reader { self.new.reader ≡ self.old.reader }
        ensures room { StaysWithin self.old.writer self.new.writer }
        ensures read { is_read_fault result ≡ false }
        ensures write { K.faults sink.new ≡ count_after (is_write_fault result) (K.faults sink.old) }
    {
        let line = line_at(&self.reader, place, len);
        let has_end = ends_line(line);
        match task.line(line, &mut self.writer, sink) {
            Ok(Step::Goes) if has_end => Ok(Step::Goes),
            Ok(Step::Goes) => ended(task.end(&mut self.writer, sink)),
            Ok(Step::Ends(outcome)) => Ok(Step::Ends(outcome)),
            Err(stop) => Err(LineFault::from(stop)),
        }
    }

    /// Takes what comes next from the source.
    fn take_next<T: LineTask, S: Source, K: Sink>(
        &mut self,
        task: &mut T,
        source: &mut S,
        sink: &mut K,
    ) -> Result<Step<T::Outcome>, LineFault>
        requires going { T.can_go task.old }
        requires counted { IsCounted (T.octets task.old) self.old }
        ensures taken { (account : List (List ℕ) → Account T.Outcome) (first : Writer) (start from : Option (List ℕ)) → IsAtLine account first start from (T.account task.old) self.old (S.left source.old) (K.written sink.old) → Advances account first start from result (T.account task.new) self.new (S.left source.new) (K.written sink.new) }
        ensures going { result ≡ Ok More → T.can_go task.new }
        ensures counted { result ≡ Ok More → IsCounted (T.octets task.new) self.new }
        ensures less { result ≡ Ok More → self.old.reader.given + 1 ≤ self.new.reader.given }
        ensures room { StaysWithin self.old.writer self.new.writer }
        ensures read { S.faults source.new ≡ count_after (is_read_fault result) (S.faults source.old) }
        ensures write { K.faults sink.new ≡ count_after (is_write_fault result) (K.faults sink.old) }
        ensures known { KnowsEnd self.old.reader.is_ended (S.said_end source.old) → KnowsEnd self.new.reader.is_ended (S.said_end source.new) }
        ensures late { KnowsEnd self.old.reader.is_ended (S.said_end source.old) → S.late_reads source.new ≡ S.late_reads source.old }
    {
        match self.reader.next(source) {
            Ok(NextLine::Line { place, len }) => self.take(place, len, task, sink),
            Ok(NextLine::LongLine) => ended(task.too_long(&mut self.writer, sink)),
            Ok(NextLine::PastEnd) => ended(task.past_end(&mut self.writer, sink)),
            Ok(NextLine::End) => ended(task.end(&mut self.writer, sink)),
            Err(Failed) => Err(LineFault::Read),
        }
    }

    /// Takes all lines of the source, up to its end or to the line that ends the task. The end of the
    /// report may be held.
    pub(crate) fn take_all<T: LineTask, S: Source, K: Sink>(
        &mut self,
        task: &mut T,
        source: &mut S,
        sink: &mut K,
    ) -> Result<T::Outcome, LineFault>
        requires going { T.can_go task.old }
        requires counted { IsCounted (T.octets task.old) self.old }
        ensures taken { (account : List (List ℕ) → Account T.Outcome) (first : Writer) (start from : Option (List ℕ)) → IsAtLine account first start from (T.account task.old) self.old (S.left source.old) (K.written sink.old) → Finishes account first start from result self.new.writer (S.left source.new) (K.written sink.new) }
        ensures room { StaysWithin self.old.writer self.new.writer }
        ensures read { S.faults source.new ≡ count_after (is_read_fault result) (S.faults source.old) }
        ensures write { K.faults sink.new ≡ count_after (is_write_fault result) (K.faults sink.old) }
        ensures late { KnowsEnd self.old.reader.is_ended (S.said_end source.old) → S.late_reads source.new ≡ S.late_reads source.old }
    {
        loop {
            match self.take_next(task, source, sink)? {
                Step::Goes => (),
                Step::Ends(outcome) => return Ok(outcome),
            }
        }
    }
}
