//! A source and a sink that never fail: their count of faults is the constant 0.

ghost use Rattle.std.specs.Prelude.{◌≡◌, ◌⊎◌, ◌+◌, ◌-◌, ◌<◌, ◌^◌, length, min, take, drop, true, false, None, Some, Ok, is_err};
ghost use Rattle.std.specs.Io.{ReadsAtMost, WritesAtMost};
ghost use Rattle.std.specs.Io.KnownBytes.{ReadConsumes, WriteAppends};
ghost use Rattle.lab_io.specs.Fault.{count_after, write_failed};
ghost use Rattle.lab_io.specs.Memory.{portion, written_over};

use crate::edge::{Failed, Sink, Source};
use std::marker::Model;

/// Copies octets over the front of `buf`, as many as fit but at most `piece`, and answers how many.
fn give(buf: &mut [u8], octets: &[u8], piece: usize) -> usize
    ensures count { result ≡ length (take (min piece (length buf.old)) octets.now) }
    ensures front { take result buf.new ≡ take result octets.now }
    ensures rest { drop result buf.new ≡ drop result buf.old }
{
    let count = piece.min(buf.len()).min(octets.len());
    buf[..count].copy_from_slice(&octets[..count]);
    count
}

/// A reader of octets in memory (a source) that never fails.
#[derive(Debug, Drop)]
pub struct SureSource {
    octets: Vec<u8>,
    at: usize,
    piece: usize,
}

impl Model for SureSource {
    ghost use Rattle.std.specs.Prelude.{◌<◌, ◌≤◌, length, drop};
    ghost use Rattle.lab_io.specs.Memory.{Pieces};

    ghost Value = { Pieces };

    ghost view = { λ s. record { left = drop s.at s.octets.items; piece = s.piece } };

    ghost invariant = { λ s. (s.at ≤ length s.octets.items) × (0 < s.piece) };
}

impl SureSource {
    /// A source of `octets` that gives at most `piece` octets at a read. Takes no memory.
    pub fn new(octets: Vec<u8>, piece: usize) -> SureSource
        requires { 0 < piece }
        ensures { result ≡ record { left = octets.items; piece = piece } }
    {
        SureSource {
            octets,
            at: 0,
            piece,
        }
    }
}

impl Source for SureSource {
    ghost left = { λ s. Some s.left };

    ghost faults = { λ _. 0 };

    ghost said_end = { λ _. false };

    ghost late_reads = { λ _. 0 };

    fn read(&mut self, buf: &mut [u8]) -> Result<usize, Failed>
        requires { 0 < length buf.old }
        ensures bound { ReadsAtMost result buf.new }
        ensures octets { ReadConsumes (Some self.old.left) (Some self.new.left) result buf.new }
        ensures faults { 0 ≡ count_after (is_err result) 0 }
        ensures end { false ≡ true → (false ≡ true) ⊎ (result ≡ Ok 0) }
        ensures late { 0 ≡ count_after false 0 }

        ensures answer { result ≡ Ok (length (portion self.old.piece self.old.left (length buf.old))) }
        ensures after { self.new ≡ record self.old { left = drop (min self.old.piece (length buf.old)) self.old.left } }
        ensures given { buf.new ≡ written_over buf.old (portion self.old.piece self.old.left (length buf.old)) }
    {
        let count = give(buf, &self.octets[self.at..], self.piece);
        self.at += count;
        Ok(count)
    }
}

/// A writer that never fails (a sink): it takes all that it is offered and keeps only how many
/// octets that were.
#[derive(Debug, Drop)]
pub struct SureSink {
    taken: u64,
}

impl Model for SureSink {
    ghost use Rattle.std.specs.Prelude.{ℕ};

    ghost Value = { ℕ };

    ghost view = { λ s. s.taken };
}

impl Sink for SureSink {
    ghost written = { λ _. None };

    ghost faults = { λ _. 0 };

    fn write(&mut self, buf: &[u8]) -> Result<usize, Failed>
        ensures bound { WritesAtMost result buf.now }
        ensures octets { WriteAppends None None result buf.now }
        ensures faults { 0 ≡ count_after (write_failed result buf.now) 0 }

        ensures answer { result ≡ Ok (length buf.now) }
        ensures after { self.new ≡ min (self.old + length buf.now) (2 ^ 64 - 1) }
    {
        self.taken = self.taken.saturating_add(buf.len() as u64);
        Ok(buf.len())
    }
}

impl SureSink {
    /// A sink that has taken nothing. Takes no memory.
    pub fn new() -> SureSink
        ensures { result ≡ 0 }
    {
        SureSink { taken: 0 }
    }

    /// How many octets it took; the greatest number of 64 bits where they were more.
    pub fn taken(&self) -> u64
        ensures { result ≡ self.now }
    {
        self.taken
    }
}
