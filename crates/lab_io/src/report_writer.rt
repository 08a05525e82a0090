//! A report on its way to a sink, held until there is enough of it to be worth a write.

ghost use Rattle.std.specs.Prelude.{◌≡◌, ◌+◌, ◌<◌, ◌≤◌, ◌++◌, [], length, is_err, IfOk, OnOk, OnErr};
ghost use Rattle.std.specs.Io.KnownBytes.{Appends};
ghost use Rattle.lab_io.specs.Fault.{count_after};
ghost use Rattle.lab_io.specs.Report.{IsPut, IsStuck};
ghost use Rattle.lab_io.specs.Transfer.{AppendsFront};

use crate::edge::{Failed, Sink};
use crate::transfer::write_all;
use net_types::OutOfMemory;
use std::alloc::Global;
use std::marker::Model;

/// A buffered writer: it holds the octets that it is given until it holds as many as it can.
#[derive(Debug, Drop)]
pub struct ReportWriter {
    buffer: Vec<u8>,
    room: usize,
}

impl Model for ReportWriter {
    ghost use Rattle.std.specs.Prelude.{◌<◌, ◌≤◌, length, vec_capacity};
    ghost use Rattle.lab_io.specs.Report.{Writer};

    ghost Value = { Writer };

    ghost view = { λ w. record { held = w.buffer.items; room = w.room } };

    ghost invariant = { λ w. (0 < w.room) × (length w.buffer.items ≤ w.room) × (w.room ≤ vec_capacity w.buffer) };
}

impl ReportWriter {
    /// A writer that holds at most `room` octets, and takes all of its memory here.
    pub fn open(alloc: Global, room: usize) -> Result<ReportWriter, OutOfMemory>
        requires { 0 < room }
        ensures { IfOk result (λ writer. writer ≡ record { held = []; room = room }) }
    {
        Ok(ReportWriter {
            buffer: Vec::with_capacity(alloc, room)?,
            room,
        })
    }

    /// Holds `octets` too.
    fn hold(&mut self, octets: &[u8])
        requires { length self.old.held + length octets.now ≤ self.old.room }
        ensures bound { length self.new.held ≤ self.new.room }
        ensures held { self.new ≡ record self.old { held = self.old.held ++ octets.now } }
    {
        match self.buffer.extend_from_slice(octets) {
            Ok(()) => (),
            Err(_) => unreachable!(),
        }
    }

    /// Writes what it holds where it can hold no more; else nothing changes.
    fn make_room<K: Sink>(&mut self, sink: &mut K) -> Result<(), Failed>
        ensures some { OnOk result (length self.new.held < self.new.room) }
        ensures room { self.new.room ≡ self.old.room }
        ensures ok { OnOk result (IsPut self.old self.new (K.written sink.old) (K.written sink.new) []) }
        ensures failed { OnErr result ((self.new ≡ self.old) × AppendsFront (K.written sink.old) (K.written sink.new) self.old.held) }
        ensures unwritten { length self.old.held < self.old.room → (self.new ≡ self.old) × (sink.new ≡ sink.old) }
        ensures faults { K.faults sink.new ≡ count_after (is_err result) (K.faults sink.old) }
    {
        if self.buffer.len() < self.room {
            return Ok(());
        }
        self.flush(sink)
    }

    /// Takes `octets`, and writes to `sink` what it holds as often as it can hold no more; nothing where
    /// it can hold them too. The first write that fails is the last one; then the writer can only be given
    /// up.
    pub fn put<K: Sink>(&mut self, octets: &[u8], sink: &mut K) -> Result<(), Failed>
        ensures room { self.new.room ≡ self.old.room }
        ensures bound { length self.new.held ≤ self.new.room }
        ensures ok { OnOk result (IsPut self.old self.new (K.written sink.old) (K.written sink.new) octets.now) }
        ensures failed { OnErr result (IsStuck self.old self.new (K.written sink.old) (K.written sink.new) octets.now) }
        ensures unwritten { length self.old.held + length octets.now ≤ self.old.room → sink.new ≡ sink.old }
        ensures faults { K.faults sink.new ≡ count_after (is_err result) (K.faults sink.old) }
    {
        let room = self.room;
        let mut done = 0;
        while done < octets.len() {
            self.make_room(sink)?;
            let count = (room - self.buffer.len()).min(octets.len() - done);
            self.hold(&octets[done..done + count]);
            done += count;
        }
        Ok(())
    }

    /// Writes all that it holds to `sink`. The first write that fails is the last one; then the
    /// writer can only be given up.
    pub fn flush<K: Sink>(&mut self, sink: &mut K) -> Result<(), Failed>
        ensures ok { OnOk result (self.new ≡ record self.old { held = [] }) }
        ensures written { OnOk result (Appends (K.written sink.old) (K.written sink.new) self.old.held) }
        ensures failed { OnErr result ((self.new ≡ self.old) × AppendsFront (K.written sink.old) (K.written sink.new) self.old.held) }
        ensures faults { K.faults sink.new ≡ count_after (is_err result) (K.faults sink.old) }
    {
        write_all(sink, self.buffer.as_slice())?;
        self.buffer.clear();
        Ok(())
    }
}
