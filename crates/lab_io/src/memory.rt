//! A source and a sink in memory, which move octets in pieces and fail at the calls that they are
//! told to fail at.

ghost use Rattle.std.specs.Prelude.{◌≡◌, ◌<◌, ◌⊎◌, [], length, true, false, Ok, Some, is_err, IfOk, OnOk, OnErr};
ghost use Rattle.std.specs.Io.{ReadsAtMost, WritesAtMost};
ghost use Rattle.std.specs.Io.KnownBytes.{ReadConsumes, WriteAppends};
ghost use Rattle.lab_io.specs.Fault.{count_after, write_failed};
ghost use Rattle.lab_io.specs.Memory.{is_failing, portion, read_answer, after_read, written_over, write_answer, after_write};

use crate::edge::{Failed, Sink, Source};
use crate::sure::SureSource;
use net_types::OutOfMemory;
use std::alloc::Global;
use std::marker::Model;

/// The most octets that a [`MemSink`] takes in all: 16 MiB.
const ROOM: usize = 16_777_216;

/// Whether the call after `calls` calls is listed in `failing`, which counts calls from 1.
fn is_listed(failing: &[u32], calls: u64) -> bool
    ensures { result ≡ is_failing failing.now calls }
{
    let next = calls.saturating_add(1);
    failing.iter().any(|call| *call as u64 == next)
}

/// A reader of octets in memory (a source) that fails where it is told to, at reads counted from 1.
#[derive(Debug, Drop)]
pub struct MemSource {
    octets: SureSource,
    failing: Vec<u32>,
    calls: u64,
    faults: u64,
}

impl Model for MemSource {
    ghost use Rattle.lab_io.specs.Memory.{Supply};

    ghost Value = { Supply };

    ghost view = { λ s. record {
      left = s.octets.left;
      piece = s.octets.piece;
      failing = s.failing.items;
      calls = s.calls;
      faults = s.faults;
    } };
}

impl MemSource {
    /// A source of `octets` that gives at most `piece` octets at a read and fails at the reads
    /// that `failing` lists, counted from 1.
    pub fn new(octets: Vec<u8>, piece: usize, failing: Vec<u32>) -> MemSource
        requires { 0 < piece }
        ensures { result ≡ record {
          left = octets.items;
          piece = piece;
          failing = failing.items;
          calls = 0;
          faults = 0;
        } }
    {
        MemSource {
            octets: SureSource::new(octets, piece),
            failing,
            calls: 0,
            faults: 0,
        }
    }
}

impl Source for MemSource {
    ghost left = { λ s. Some s.left };

    ghost faults = { λ s. s.faults };

    ghost said_end = { λ _. false };

    ghost late_reads = { λ _. 0 };

    fn read(&mut self, buf: &mut [u8]) -> Result<usize, Failed>
        requires { 0 < length buf.old }
        ensures bound { ReadsAtMost result buf.new }
        ensures octets { ReadConsumes (Some self.old.left) (Some self.new.left) result buf.new }
        ensures faults { self.new.faults ≡ count_after (is_err result) self.old.faults }
        ensures end { false ≡ true → (false ≡ true) ⊎ (result ≡ Ok 0) }
        ensures late { 0 ≡ count_after false 0 }

        ensures answer { result ≡ read_answer self.old (length buf.old) }
        ensures after { self.new ≡ after_read self.old (length buf.old) }
        ensures given { OnOk result (buf.new ≡ written_over buf.old (portion self.old.piece self.old.left (length buf.old))) }
        ensures kept { OnErr result (buf.new ≡ buf.old) }
    {
        let fails = is_listed(self.failing.as_slice(), self.calls);
        self.calls = self.calls.saturating_add(1);
        if fails {
            self.faults = self.faults.saturating_add(1);
            return Err(Failed);
        }
        self.octets.read(buf)
    }
}

/// A writer to octets in memory (a sink), with room for 16 MiB, that fails where it is told to.
#[derive(Debug, Drop)]
pub struct MemSink {
    taken: Vec<u8>,
    piece: usize,
    failing: Vec<u32>,
    calls: u64,
    faults: u64,
}

impl Model for MemSink {
    ghost use Rattle.std.specs.Prelude.{◌≤◌, length, vec_capacity};
    ghost use Rattle.lab_io.specs.Memory.{Store, sink_room};

    ghost Value = { Store };

    ghost view = { λ s. record {
      taken = s.taken.items;
      piece = s.piece;
      failing = s.failing.items;
      calls = s.calls;
      faults = s.faults;
    } };

    ghost invariant = { λ s. (length s.taken.items ≤ sink_room) × (sink_room ≤ vec_capacity s.taken) };
}

impl MemSink {
    /// A sink that takes at most `piece` octets at a write and fails at the writes that `failing`
    /// lists, counted from 1, and where a write doesn't fit its room. With `piece` 0 it takes
    /// nothing. All of its room is taken here.
    pub fn new(alloc: Global, piece: usize, failing: Vec<u32>) -> Result<MemSink, OutOfMemory>
        ensures { IfOk result (λ sink. sink ≡ record {
          taken = [];
          piece = piece;
          failing = failing.items;
          calls = 0;
          faults = 0;
        }) }
    {
        Ok(MemSink {
            taken: Vec::with_capacity(alloc, ROOM)?,
            piece,
            failing,
            calls: 0,
            faults: 0,
        })
    }

    /// The octets that it took.
    pub fn written(&self) -> &[u8]
        ensures { result.now ≡ self.now.taken }
    {
        self.taken.as_slice()
    }
}

impl Sink for MemSink {
    ghost written = { λ s. Some s.taken };

    ghost faults = { λ s. s.faults };

    fn write(&mut self, buf: &[u8]) -> Result<usize, Failed>
        ensures bound { WritesAtMost result buf.now }
        ensures octets { WriteAppends (Some self.old.taken) (Some self.new.taken) result buf.now }
        ensures faults { self.new.faults ≡ count_after (write_failed result buf.now) self.old.faults }

        ensures answer { result ≡ write_answer self.old buf.now }
        ensures after { self.new ≡ after_write self.old buf.now }
    {
        let fails = is_listed(self.failing.as_slice(), self.calls);
        self.calls = self.calls.saturating_add(1);
        let count = self.piece.min(buf.len());
        if fails || count > ROOM - self.taken.len() {
            self.faults = self.faults.saturating_add(1);
            return Err(Failed);
        }
        if count == 0 && !buf.is_empty() {
            self.faults = self.faults.saturating_add(1);
            return Ok(0);
        }
        match self.taken.extend_from_slice(&buf[..count]) {
            Ok(()) => Ok(count),
            Err(_) => unreachable!(),
        }
    }
}
