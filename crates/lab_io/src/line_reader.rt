//! The lines of an input, one by one, read as they are asked for.

ghost use Rattle.std.specs.Prelude.{◌≡◌, ◌⊎◌, ◌+◌, ◌-◌, ◌<◌, ◌≤◌, [], length, take, drop, true, false, Some, Ok, replicate, is_err, IfOk, IfSome, OnOk, OnErr};
ghost use Rattle.std.specs.Option.{option_map};
ghost use Rattle.std.specs.Io.KnownBytes.{Consumes, IsAtEnd, Keeps};
ghost use Rattle.lab_text.specs.Line.{input_limit};
ghost use Rattle.lab_io.specs.Fault.{count_after};
ghost use Rattle.lab_io.specs.Lines.{Answer, IsWithin, after_answer, answer_in, answer_to, feed, first_line, is_all, told};
ghost use Rattle.lab_io.specs.Reading.{IsCutOff, IsNext, KnowsEnd, Saw};

use crate::edge::{Failed, Source};
use lab_text::{INPUT_LIMIT, LINE_LIMIT, line_feed, line_text};
use net_types::OutOfMemory;
use std::alloc::Global;
use std::marker::Model;

/// The most octets without an LF that may yet be those of a line within the limit and its CR.
const OPEN_LIMIT: usize = LINE_LIMIT + 2;

/// An item of a reader of lines: what [`LineReader::next`] found.
#[derive(Clone, Copy, Debug, PartialEq, Eq)]
pub enum NextLine {
    /// A line, with its LF where it has one.
    Line {
        /// Where it begins in the buffer.
        place: usize,
        /// How many octets it has.
        len: usize,
    },
    /// A line of more than 4,096 octets, its LF or CR LF not counted. None of it is kept.
    LongLine,
    /// A line that holds octet 16,777,217 of the input.
    PastEnd,
    /// The source is at its end and no octet is left.
    End,
}

/// A buffered reader of lines of text. A line ends at an LF or where the source does.
#[derive(Debug, Drop)]
pub struct LineReader {
    buffer: Vec<u8>,
    start: usize,
    end: usize,
    given: usize,
    is_ended: bool,
}

impl Model for LineReader {
    ghost use Rattle.std.specs.Prelude.{◌+◌, ◌-◌, ◌<◌, ◌≤◌, length, take, drop};
    ghost use Rattle.lab_text.specs.Line.{input_limit};
    ghost use Rattle.lab_io.specs.Lines.{Reader};

    ghost Value = { Reader };

    ghost view = { λ r. record {
      buffer = r.buffer.items;
      held = take (r.end - r.start) (drop r.start r.buffer.items);
      given = r.given;
      is_ended = r.is_ended;
    } };

    ghost invariant = { λ r. (r.start ≤ r.end)
        × (r.end ≤ length r.buffer.items)
        × (4099 ≤ length r.buffer.items)
        × (r.given < input_limit)
        × (r.given + (r.end - r.start) ≤ input_limit) };
}

/// Moves the octets from `start` to `end` to the front of `buffer` where they stand at its end, and
/// tells where they begin then.
fn with_room_behind(buffer: &mut [u8], start: usize, end: usize) -> usize
    requires part { start ≤ end }
    requires within { end ≤ length buffer.old }
    requires room { end - start < length buffer.old }
    ensures part { take (end - start) (drop result buffer.new) ≡ take (end - start) (drop start buffer.old) }
    ensures room { result + (end - start) < length buffer.new }
{
    if end < buffer.len() {
        return start;
    }
    buffer.copy_within(start..end, 0);
    0
}

/// Reads once, at most `room` octets, into `buffer` from `place` on.
fn read_at<S: Source>(
    buffer: &mut [u8],
    place: usize,
    room: usize,
    source: &mut S,
) -> Result<usize, Failed>
    requires some { 0 < room }
    requires within { place + room ≤ length buffer.old }
    ensures front { take place buffer.new ≡ take place buffer.old }
    ensures bound { IfOk result (λ count. count ≤ room) }
    ensures octets { IfOk result (λ count. Consumes (S.left source.old) (S.left source.new) (take count (drop place buffer.new))) }
    ensures end { IfOk result (λ count. count ≡ 0 → IsAtEnd (S.left source.new)) }
    ensures kept { OnErr result (Keeps (S.left source.old) (S.left source.new)) }
    ensures faults { S.faults source.new ≡ count_after (is_err result) (S.faults source.old) }
    ensures end_said { S.said_end source.new ≡ true → (S.said_end source.old ≡ true) ⊎ (result ≡ Ok 0) }
    ensures late { S.late_reads source.new ≡ count_after (S.said_end source.old) (S.late_reads source.old) }
{
    source.read(&mut buffer[place..place + room])
}

impl LineReader {
    /// A reader that has read nothing yet, with a buffer of `room` octets, which is all the memory
    /// that it takes.
    pub fn open(alloc: Global, room: usize) -> Result<LineReader, OutOfMemory>
        requires { 4099 ≤ room }
        ensures { IfOk result (λ reader. reader ≡ record { buffer = replicate room 0; held = []; given = 0; is_ended = false }) }
    {
        Ok(LineReader {
            buffer: vec![in alloc; 0; room]?,
            start: 0,
            end: 0,
            given: 0,
            is_ended: false,
        })
    }

    /// The buffer, in which a line stands until the next call of [`LineReader::next`].
    pub fn octets(&self) -> &[u8]
        ensures { result.now ≡ self.now.buffer }
    {
        self.buffer.as_slice()
    }

    /// The octets that were read and not given.
    fn held(&self) -> &[u8]
        ensures { result.now ≡ self.now.held }
    {
        &self.buffer[self.start..self.end]
    }

    /// Whether no octet can come behind those that are held.
    fn is_all(&self) -> bool
        ensures { result ≡ is_all self.now.given self.now.is_ended self.now.held }
    {
        self.is_ended || self.given + self.held().len() >= INPUT_LIMIT
    }

    /// How many of the held octets are the first line; `None` where more have to be read. The first
    /// `searched` of them hold no LF.
    fn line_len(&self, searched: usize) -> Option<usize>
        requires within { searched ≤ length self.now.held }
        requires no_feed { feed (take searched self.now.held) ≡ searched }
        ensures line { option_map (λ len. take len self.now.held) result ≡ first_line (is_all self.now.given self.now.is_ended self.now.held) self.now.held }
        ensures within_held { IfSome result (λ len. len ≤ length self.now.held) }
    {
        let held = self.held();
        match line_feed(&held[searched..]) {
            Some(place) => Some(searched + place + 1),
            None if self.is_all() => Some(held.len()),
            None => None,
        }
    }

    /// Gives the line that the first `len` held octets are.
    fn give(&mut self, len: usize) -> NextLine
        requires { len ≤ length self.old.held }
        ensures answer { told self.new.buffer result ≡ answer_to self.old.given (take len self.old.held) }
        ensures within { IsWithin self.new.buffer result }
        ensures after { self.new ≡ after_answer self.old (told self.new.buffer result) }
    {
        if len == 0 {
            return NextLine::End;
        }
        if self.given + len >= INPUT_LIMIT {
            return NextLine::PastEnd;
        }
        let place = self.start;
        if line_text(&self.buffer[place..place + len]).len() > LINE_LIMIT {
            return NextLine::LongLine;
        }
        self.start += len;
        self.given += len;
        NextLine::Line { place, len }
    }

    /// Reads once, behind the held octets.
    fn fill<S: Source>(&mut self, source: &mut S) -> Result<(), Failed>
        requires open { self.old.is_ended ≡ false }
        requires short { length self.old.held ≤ 4098 }
        requires more { self.old.given + length self.old.held < input_limit }
        ensures saw { Saw self.old.held (S.left source.old) (S.left source.new) self.new.held }
        ensures given { self.new.given ≡ self.old.given }
        ensures ended { self.new.is_ended ≡ true → IsAtEnd (S.left source.new) }
        ensures some { OnOk result ((self.new.is_ended ≡ true) ⊎ (length self.old.held < length self.new.held)) }
        ensures kept { OnErr result (self.new.held ≡ self.old.held) }
        ensures faults { S.faults source.new ≡ count_after (is_err result) (S.faults source.old) }
        ensures known { KnowsEnd self.old.is_ended (S.said_end source.old) → KnowsEnd self.new.is_ended (S.said_end source.new) }
        ensures late { KnowsEnd self.old.is_ended (S.said_end source.old) → S.late_reads source.new ≡ S.late_reads source.old }
    {
        let held = self.end - self.start;
        self.start = with_room_behind(&mut self.buffer, self.start, self.end);
        self.end = self.start + held;
        let room = (self.buffer.len() - self.end).min(INPUT_LIMIT - (self.given + held));
        let count = read_at(&mut self.buffer, self.end, room, source)?;
        self.end += count;
        self.is_ended = count == 0;
        Ok(())
    }

    /// Reads a line that is too long on to its end, keeping none of it.
    fn skip_line<S: Source>(&mut self, source: &mut S) -> Result<NextLine, Failed>
        requires open { self.old.is_ended ≡ false }
        requires long { 4098 < length self.old.held }
        requires no_feed { feed self.old.held ≡ length self.old.held }
        requires more { self.old.given + length self.old.held < input_limit }
        ensures next { IfOk result (λ next. IsNext self.old self.new (S.left source.old) (S.left source.new) (told self.new.buffer next)) }
        ensures within { IfOk result (λ next. IsWithin self.new.buffer next) }
        ensures cut { OnErr result (IsCutOff self.old (S.left source.old) (S.left source.new)) }
        ensures ended { self.new.is_ended ≡ true → IsAtEnd (S.left source.new) }
        ensures faults { S.faults source.new ≡ count_after (is_err result) (S.faults source.old) }
        ensures known { KnowsEnd self.old.is_ended (S.said_end source.old) → KnowsEnd self.new.is_ended (S.said_end source.new) }
        ensures late { KnowsEnd self.old.is_ended (S.said_end source.old) → S.late_reads source.new ≡ S.late_reads source.old }
    {
        let mut read = self.given + (self.end - self.start);
        while read < INPUT_LIMIT {
            let room = self.buffer.len().min(INPUT_LIMIT - read);
            let count = read_at(&mut self.buffer, 0, room, source)?;
            if count == 0 {
                self.is_ended = true;
                return Ok(NextLine::LongLine);
            }
            match line_feed(&self.buffer[..count]) {
                Some(place) if read + place + 1 < INPUT_LIMIT => return Ok(NextLine::LongLine),
                Some(_) => return Ok(NextLine::PastEnd),
                None => read += count,
            }
        }
        Ok(NextLine::PastEnd)
    }

    /// The next line, whose octets are found in [`LineReader::octets`] until the next call. Reads
    /// only where no whole line is held, and never again where the source came to its end. After
    /// [`NextLine::LongLine`], [`NextLine::PastEnd`] and [`Failed`] the reader can only be given up.
    pub fn next<S: Source>(&mut self, source: &mut S) -> Result<NextLine, Failed>
        ensures next { IfOk result (λ next. IsNext self.old self.new (S.left source.old) (S.left source.new) (told self.new.buffer next)) }
        ensures within { IfOk result (λ next. IsWithin self.new.buffer next) }
        ensures cut { OnErr result (IsCutOff self.old (S.left source.old) (S.left source.new)) }
        ensures ended { self.new.is_ended ≡ true → (self.old.is_ended ≡ true) ⊎ IsAtEnd (S.left source.new) }
        ensures unread { (answer : Answer) → answer_in self.old.given self.old.is_ended self.old.held ≡ Some answer → source.new ≡ source.old }
        ensures faults { S.faults source.new ≡ count_after (is_err result) (S.faults source.old) }
        ensures known { KnowsEnd self.old.is_ended (S.said_end source.old) → KnowsEnd self.new.is_ended (S.said_end source.new) }
        ensures late { KnowsEnd self.old.is_ended (S.said_end source.old) → S.late_reads source.new ≡ S.late_reads source.old }
    {
        let mut searched = 0;
        loop {
            match self.line_len(searched) {
                Some(len) => return Ok(self.give(len)),
                None => searched = self.held().len(),
            }
            if searched > OPEN_LIMIT {
                return self.skip_line(source);
            }
            self.fill(source)?;
        }
    }
}
