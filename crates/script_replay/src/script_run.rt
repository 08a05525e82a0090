//! A replay with what it reads from and what it writes with.

ghost use Rattle.std.specs.Prelude.{◌≡◌, ◌≤◌, ◌+◌, ℕ, List, Option, Ok, IfOk, OnOk, OnErr, is_err, false, length, take, drop};
ghost use Rattle.std.specs.Io.KnownBytes.{Appends};
ghost use Rattle.lab_io.specs.Transfer.{AppendsFront};
ghost use Rattle.lab_io.specs.Fault.{count_after};
ghost use Rattle.lab_io.specs.Reading.{KnowsEnd};
ghost use Rattle.lab_io.specs.Report.{Writer};
ghost use Rattle.lab_io.specs.Puts.{StaysWithin};
ghost use Rattle.network_replay.specs.Along.{IsGoing};
ghost use Rattle.network_replay.specs.Lines.{HasCounted};
ghost use Rattle.world.specs.declared.counts.Meter.{Meter as Reading};
ghost use Rattle.script_replay.specs.declared.script_run.Step.TheVariants.{Goes as More};
ghost use Rattle.line_by_line.specs.Faults.{is_read_fault, is_write_fault};
ghost use Rattle.script_replay.specs.Reading.{Advances, Finishes, HasLineRoom, HasNext, IsAtLine, IsBegun, IsCounted, IsSettled, Tells, ends_line};
ghost use Rattle.script_replay.specs.Report.{IsMeteredFrom, account_by, telling_by};

use lab_io::{Failed, LineReader, NextLine, ReportWriter, Sink, Source};
use line_by_line::{LineFault, ROOM};
use net_types::OutOfMemory;
use network_replay::{LineForm, PolicyChoice, Replay};
use network_run::{Teller, Told};
use script_model::{LineRefusal, Refused};
use std::alloc::Global;
use world::{Meter, NodeController};

/// The control flow behind a line of a script: another one may follow, or the script ends.
#[derive(Clone, Copy, Debug, PartialEq, Eq)]
pub enum Step {
    /// Another may follow.
    Goes,
    /// The script is at its end, or something is refused.
    Ends(Option<Refused>),
}

/// A replay with its reader and its observer: who reads the script, and who tells its run. It must
/// be given up by [`ScriptRun::abandon`].
#[must_use]
pub struct ScriptRun<C, T> {
    reader: LineReader,
    told: Told<T>,
    replay: Replay<C>,
}

/// Whether a line has its end.
fn ends_line(line: &[u8]) -> bool
    ensures { result ≡ ends_line line.now }
{
    matches!(line.last(), Some(b'\n'))
}

impl<C: NodeController, T: Teller<C> + Drop> ScriptRun<C, T> {
    /// Nothing is read yet.
    pub fn open(alloc: Global, teller: T) -> Result<ScriptRun<C, T>, OutOfMemory>
        ensures { IfOk result IsBegun }
    {
        let reader = LineReader::open(alloc, ROOM)?;
        let writer = ReportWriter::open(alloc, ROOM)?;
        let replay = Replay::open(alloc)?;
        Ok(ScriptRun {
            reader,
            told: Told { teller, writer },
            replay,
        })
    }

    /// Takes the line that stands here in the buffer. One without its end is the last.
    fn take<N: PolicyChoice<C>, K: Sink>(
        &mut self,
        place: usize,
        len: usize,
        choice: &N,
        sink: &mut K,
        meter: &mut Meter,
    ) -> Result<Step, LineFault>
        requires within { place + len ≤ length self.old.reader.buffer }
        requires going { IsGoing C.seen (N.chosen choice.now) self.old.replay }
        requires room { HasLineRoom self.old.replay.state len }
        ensures taken { (first : Writer) (start : Option (List ℕ)) (before : Reading) (from left : Option (List ℕ)) → HasNext C.seen T.state T.tale (N.chosen choice.now) first start before from (take len (drop place self.old.reader.buffer)) self.old left (K.written sink.old) meter.old → Advances C.seen T.state T.tale (N.chosen choice.now) first start before from result self.new left (K.written sink.new) meter.new }
        ensures kept { (first : Writer) (start : Option (List ℕ)) (before : Reading) (from left : Option (List ℕ)) → HasNext C.seen T.state T.tale (N.chosen choice.now) first start before from (take len (drop place self.old.reader.buffer)) self.old left (K.written sink.old) meter.old → OnErr result (IsMeteredFrom (N.chosen choice.now) from before meter.new) }
        ensures going { IfOk result (λ step. IsGoing C.seen (N.chosen choice.now) self.new.replay) }
        ensures counted { result ≡ Ok More → HasCounted self.old.replay.state (take len (drop place self.old.reader.buffer)) self.new.replay.state }
        ensures reader { self.new.reader ≡ self.old.reader }
        ensures room { StaysWithin self.old.told.writer self.new.told.writer }
        ensures read { is_read_fault result ≡ false }
        ensures write { K.faults sink.new ≡ count_after (is_write_fault result) (K.faults sink.old) }
    {
        let line = &self.reader.octets()[place..place + len];
        let has_end = ends_line(line);
        match self.replay.line(LineForm::Script, line, choice, &mut self.told, sink, meter)? {
            Some(refused) => Ok(Step::Ends(Some(refused))),
            None if has_end => Ok(Step::Goes),
            None => Ok(Step::Ends(None)),
        }
    }

    /// Takes the next line of the source.
    fn take_line<N: PolicyChoice<C>, S: Source, K: Sink>(
        &mut self,
        choice: &N,
        source: &mut S,
        sink: &mut K,
        meter: &mut Meter,
    ) -> Result<Step, LineFault>
        requires going { IsGoing C.seen (N.chosen choice.now) self.old.replay }
        requires counted { IsCounted self.old }
        ensures taken { (first : Writer) (start : Option (List ℕ)) (before : Reading) (from : Option (List ℕ)) → IsAtLine C.seen T.state T.tale (N.chosen choice.now) first start before from self.old (S.left source.old) (K.written sink.old) meter.old → Advances C.seen T.state T.tale (N.chosen choice.now) first start before from result self.new (S.left source.new) (K.written sink.new) meter.new }
        ensures kept { (first : Writer) (start : Option (List ℕ)) (before : Reading) (from : Option (List ℕ)) → IsAtLine C.seen T.state T.tale (N.chosen choice.now) first start before from self.old (S.left source.old) (K.written sink.old) meter.old → OnErr result (IsMeteredFrom (N.chosen choice.now) from before meter.new) }
        ensures going { IfOk result (λ step. IsGoing C.seen (N.chosen choice.now) self.new.replay) }
        ensures counted { result ≡ Ok More → IsCounted self.new }
        ensures less { result ≡ Ok More → self.old.reader.given + 1 ≤ self.new.reader.given }
        ensures room { StaysWithin self.old.told.writer self.new.told.writer }
        ensures read { S.faults source.new ≡ count_after (is_read_fault result) (S.faults source.old) }
        ensures write { K.faults sink.new ≡ count_after (is_write_fault result) (K.faults sink.old) }
        ensures known { KnowsEnd self.old.reader.is_ended (S.said_end source.old) → KnowsEnd self.new.reader.is_ended (S.said_end source.new) }
        ensures late { KnowsEnd self.old.reader.is_ended (S.said_end source.old) → S.late_reads source.new ≡ S.late_reads source.old }
    {
        match self.reader.next(source) {
            Ok(NextLine::Line { place, len }) => self.take(place, len, choice, sink, meter),
            Ok(NextLine::LongLine) => {
                let refused = self.replay.refused(LineRefusal::LineTooLong);
                Ok(Step::Ends(Some(refused)))
            }
            Ok(NextLine::PastEnd) => {
                let refused = self.replay.refused(LineRefusal::ScriptTooLong);
                Ok(Step::Ends(Some(refused)))
            }
            Ok(NextLine::End) => Ok(Step::Ends(None)),
            Err(Failed) => Err(LineFault::Read),
        }
    }

    /// Takes all lines of the source, up to its end or to what is refused, which is told.
    fn take_lines<N: PolicyChoice<C>, S: Source, K: Sink>(
        &mut self,
        choice: &N,
        source: &mut S,
        sink: &mut K,
        meter: &mut Meter,
    ) -> Result<Option<Refused>, LineFault>
        requires going { IsGoing C.seen (N.chosen choice.now) self.old.replay }
        requires counted { IsCounted self.old }
        ensures taken { (first : Writer) (start : Option (List ℕ)) (before : Reading) (from : Option (List ℕ)) → IsAtLine C.seen T.state T.tale (N.chosen choice.now) first start before from self.old (S.left source.old) (K.written sink.old) meter.old → Finishes C.seen T.state T.tale (N.chosen choice.now) first start before from result self.new (S.left source.new) (K.written sink.new) meter.new }
        ensures metered { (first : Writer) (start : Option (List ℕ)) (before : Reading) (from : Option (List ℕ)) → IsAtLine C.seen T.state T.tale (N.chosen choice.now) first start before from self.old (S.left source.old) (K.written sink.old) meter.old → IsMeteredFrom (N.chosen choice.now) from before meter.new }
        ensures going { IfOk result (λ refused. IsGoing C.seen (N.chosen choice.now) self.new.replay) }
        ensures room { StaysWithin self.old.told.writer self.new.told.writer }
        ensures read { S.faults source.new ≡ count_after (is_read_fault result) (S.faults source.old) }
        ensures write { K.faults sink.new ≡ count_after (is_write_fault result) (K.faults sink.old) }
        ensures late { KnowsEnd self.old.reader.is_ended (S.said_end source.old) → S.late_reads source.new ≡ S.late_reads source.old }
    {
        loop {
            match self.take_line(choice, source, sink, meter)? {
                Step::Goes => (),
                Step::Ends(refused) => return Ok(refused),
            }
        }
    }

    /// Replays the script, and tells what is refused in it. The end of the report may be held.
    pub fn replay<N: PolicyChoice<C>, S: Source, K: Sink>(
        &mut self,
        choice: &N,
        source: &mut S,
        sink: &mut K,
        meter: &mut Meter,
    ) -> Result<Option<Refused>, LineFault>
        requires going { IsGoing C.seen (N.chosen choice.now) self.old.replay }
        requires counted { IsCounted self.old }
        ensures told { (first : Writer) (start : Option (List ℕ)) (before : Reading) (from : Option (List ℕ)) → IsAtLine C.seen T.state T.tale (N.chosen choice.now) first start before from self.old (S.left source.old) (K.written sink.old) meter.old → Tells (N.chosen choice.now) (account_by T.tale (N.chosen choice.now)) (telling_by T.tale (N.chosen choice.now)) first start before from result self.new.told.writer (S.left source.new) (K.written sink.new) meter.new }
        ensures metered { (first : Writer) (start : Option (List ℕ)) (before : Reading) (from : Option (List ℕ)) → IsAtLine C.seen T.state T.tale (N.chosen choice.now) first start before from self.old (S.left source.old) (K.written sink.old) meter.old → IsMeteredFrom (N.chosen choice.now) from before meter.new }
        ensures room { StaysWithin self.old.told.writer self.new.told.writer }
        ensures read { S.faults source.new ≡ count_after (is_read_fault result) (S.faults source.old) }
        ensures write { K.faults sink.new ≡ count_after (is_write_fault result) (K.faults sink.old) }
        ensures late { KnowsEnd self.old.reader.is_ended (S.said_end source.old) → S.late_reads source.new ≡ S.late_reads source.old }
    {
        let refused = self.take_lines(choice, source, sink, meter)?;
        self.replay.end(refused, choice, &mut self.told, sink)?;
        Ok(refused)
    }

    /// Writes what is held of the report, and gives the network up.
    pub fn finish<K: Sink>(self, sink: &mut K) -> Result<(), Failed>
        ensures written { OnOk result (Appends (K.written sink.old) (K.written sink.new) self.told.writer.held) }
        ensures failed { OnErr result (AppendsFront (K.written sink.old) (K.written sink.new) self.told.writer.held) }
        ensures faults { K.faults sink.new ≡ count_after (is_err result) (K.faults sink.old) }
    {
        let ScriptRun {
            reader: _,
            mut told,
            replay,
        } = self;
        replay.abandon();
        told.writer.flush(sink)
    }

    /// Gives all up.
    pub fn abandon(self) {
        let ScriptRun {
            reader: _,
            told: _,
            replay,
        } = self;
        replay.abandon();
    }
}
