//! Reading the lines of a console's input.

ghost use Rattle.std.specs.Prelude.{◌≡◌, ◌+◌, IfOk, length};
ghost use Rattle.console_model.specs.Lines.{event_meant, is_too_many, line_says, meant, nothing_read, rounds_of, text_says, with_counted, with_event_line, with_said};
ghost use Rattle.gsmp_console.specs.Script.{HasRoom, IsSayable, at_most, counted_up_to, refused_by};

use crate::commands::{ROUNDS, said};
use crate::keyword::keyword_of;
use console_model::{ConsoleFault, ConsoleLine};
use lab_text::{LineFault, check_line, is_blank_line, split_word};
use std::marker::Model;

/// The most lines of events.
const EVENT_LINES: u32 = 200_000;

/// Where the counts of octets and lines stay.
const LAST: u32 = 4_294_967_295;

/// So many and so many more; 4,294,967,295 where it would be more.
fn counted(count: u32, more: usize) -> u32
    ensures { result ≡ at_most 4294967295 (count + more) }
{
    if more < (LAST - count) as usize {
        count + more as u32
    } else {
        LAST
    }
}

/// The name of what the octets of a line are refused for.
fn fault_of(fault: LineFault) -> ConsoleFault
    ensures { refused_by fault result }
{
    match fault {
        LineFault::ScriptTooLong => ConsoleFault::ScriptTooLong,
        LineFault::LineTooLong => ConsoleFault::LineTooLong,
        LineFault::BadByte | LineFault::Arity | LineFault::BadHex | LineFault::OutOfMemory(_) => {
            ConsoleFault::BadByte
        }
    }
}

/// The rounds of a line.
fn rounds_of(line: ConsoleLine) -> u32
    ensures { result ≡ rounds_of line }
{
    match line {
        ConsoleLine::Run(rounds) => rounds,
        ConsoleLine::Blank | ConsoleLine::Ports(_) | ConsoleLine::Event(_) => 0,
    }
}

/// The parser state of a console's input: how many octets and lines it has had, whether one was
/// `ports`, how many were events, and their rounds. The counts of octets and lines stay at
/// 4,294,967,295 once there.
#[derive(Debug, Drop)]
pub struct ConsoleScript {
    octets: u32,
    lines: u32,
    has_ports: bool,
    event_lines: u32,
    rounds: u32,
}

impl Model for ConsoleScript {
    ghost use Rattle.console_model.specs.Lines.{ConsoleState};
    ghost use Rattle.std.specs.Prelude.{◌≤◌};

    ghost Value = { ConsoleState };

    ghost view = { λ s. record { octets = s.octets; lines = s.lines; has_ports = s.has_ports; event_lines = s.event_lines; rounds = s.rounds } };

    ghost invariant = { λ s. (s.event_lines ≤ 200000) × (s.rounds ≤ 100000) };
}

impl ConsoleScript {
    /// Nothing is read yet.
    pub fn new() -> ConsoleScript
        ensures { result ≡ nothing_read }
    {
        ConsoleScript {
            octets: 0,
            lines: 0,
            has_ports: false,
            event_lines: 0,
            rounds: 0,
        }
    }

    /// How many octets the lines so far have, their ends included.
    pub fn octets(&self) -> u32
        ensures { result ≡ self.now.octets }
    {
        self.octets
    }

    /// How many lines there were, blank and refused ones included.
    pub fn lines(&self) -> u32
        ensures { result ≡ self.now.lines }
    {
        self.lines
    }

    /// A line counts, also where it is refused.
    fn count_line(&mut self, line: &[u8])
        ensures { self.new ≡ counted_up_to self.old line.now }
    {
        self.octets = counted(self.octets, line.len());
        self.lines = counted(self.lines, 1);
    }

    /// Takes an event line. Refuses `NoPorts` and `TooMany`.
    fn take(&mut self, line: ConsoleLine) -> Result<ConsoleLine, ConsoleFault>
        ensures said { result ≡ event_meant self.old line }
        ensures after { IfOk result (λ said. (said ≡ line) × (self.new ≡ with_event_line self.old line)) }
    {
        if !self.has_ports {
            return Err(ConsoleFault::NoPorts);
        }
        let rounds = rounds_of(line);
        if EVENT_LINES < self.event_lines + 1
            || (ROUNDS as u64) < self.rounds as u64 + rounds as u64
        {
            return Err(ConsoleFault::TooMany);
        }
        self.event_lines += 1;
        self.rounds += rounds;
        Ok(line)
    }

    /// What a line means behind those before it.
    fn mean(&mut self, line: ConsoleLine) -> Result<ConsoleLine, ConsoleFault>
        ensures said { result ≡ meant self.old line }
        ensures after { IfOk result (λ said. (said ≡ line) × (self.new ≡ with_said self.old line)) }
    {
        match line {
            ConsoleLine::Blank => Ok(ConsoleLine::Blank),
            ConsoleLine::Ports(ports) => {
                if self.has_ports {
                    return Err(ConsoleFault::Late);
                }
                self.has_ports = true;
                Ok(ConsoleLine::Ports(ports))
            }
            ConsoleLine::Event(event) => self.take(ConsoleLine::Event(event)),
            ConsoleLine::Run(rounds) => self.take(ConsoleLine::Run(rounds)),
        }
    }

    /// What the text of a line says, whose octets are those of one.
    fn read_text(&mut self, text: &[u8]) -> Result<ConsoleLine, ConsoleFault>
        ensures said { result ≡ text_says self.old text.now }
        ensures after { IfOk result (λ said. self.new ≡ with_said self.old said) }
        ensures sayable { IfOk result IsSayable }
    {
        if is_blank_line(text) {
            return Ok(ConsoleLine::Blank);
        }
        let Some((first, rest)) = split_word(text) else {
            return Ok(ConsoleLine::Blank);
        };
        let Some(keyword) = keyword_of(first) else {
            return Err(ConsoleFault::UnknownWord);
        };
        let line = said(keyword, rest)?;
        self.mean(line)
    }

    /// Reads the next line, with its LF or CR LF where it has one. The first test that it fails gives its
    /// refusal: `ScriptTooLong`, `LineTooLong`, `BadByte`; unless it is blank, `UnknownWord`, `Arity`,
    /// `BadNumber` and `BadPlace` from left to right, `NoPorts`, `Late`, `TooMany`. After a refusal the
    /// script can only be given up.
    pub fn line(&mut self, line: &[u8]) -> Result<ConsoleLine, ConsoleFault>
        ensures said { result ≡ line_says self.old line.now }
        ensures after { HasRoom self.old line.now → IfOk result (λ said. self.new ≡ with_said (with_counted self.old line.now) said) }
        ensures sayable { IfOk result IsSayable }
    {
        let before = self.octets;
        self.count_line(line);
        match check_line(before, line) {
            Ok(text) => self.read_text(text),
            Err(fault) => Err(fault_of(fault)),
        }
    }
}
