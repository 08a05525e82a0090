//! Whole inputs and whole outputs over a source and a sink.

ghost use Rattle.std.specs.Prelude.{◌≡◌, ◌<◌, ◌≤◌, false, length, is_err, IfOk, OnOk, OnErr};
ghost use Rattle.std.specs.Io.KnownBytes.{Appends, Consumes, IsAtEnd};
ghost use Rattle.lab_io.specs.Fault.{count_after};
ghost use Rattle.lab_io.specs.Transfer.{AppendsFront, ConsumesSome, input_failed};

use crate::edge::{Failed, Sink, Source};
use net_types::OutOfMemory;
use std::alloc::Global;

/// An error of [`read_to_end`]: why it gave no octets.
#[derive(Clone, Copy, Debug, PartialEq, Eq)]
pub enum InputFault {
    /// A read failed.
    Failed,
    /// No memory was there for what was read.
    OutOfMemory(OutOfMemory),
}

/// The most octets that one read asks for.
const CHUNK: usize = 4096;

/// Reads `source` to its end, but never more than `limit` octets: it ends without a further read
/// where it has as many, or where the source says its end. The first read that fails is the last one. After a refusal the octets read so
/// far are lost.
pub fn read_to_end<S: Source>(
    alloc: Global,
    source: &mut S,
    limit: usize,
) -> Result<Vec<u8>, InputFault>
    ensures faults { S.faults source.new ≡ count_after (input_failed result) (S.faults source.old) }
    ensures octets { IfOk result (λ read. Consumes (S.left source.old) (S.left source.new) read.items) }
    ensures bound { IfOk result (λ read. length read.items ≤ limit) }
    ensures whole { IfOk result (λ read. length read.items < limit → IsAtEnd (S.left source.new)) }
    ensures lost { OnErr result (ConsumesSome (S.left source.old) (S.left source.new)) }
    ensures late { S.said_end source.old ≡ false → S.late_reads source.new ≡ S.late_reads source.old }
{
    let mut octets = Vec::new(alloc);
    let mut buffer = [0u8; CHUNK];
    while octets.len() < limit {
        let room = CHUNK.min(limit - octets.len());
        let count = match source.read(&mut buffer[..room]) {
            Ok(count) => count,
            Err(Failed) => return Err(InputFault::Failed),
        };
        if count == 0 {
            return Ok(octets);
        }
        if let Err(error) = octets.extend_from_slice(&buffer[..count]) {
            return Err(InputFault::OutOfMemory(error.into()));
        }
    }
    Ok(octets)
}

/// Writes all of `octets` to `sink`, or a front of them where it fails. A sink that takes none of
/// some octets has failed. The first write that fails is the last one.
pub fn write_all<K: Sink>(sink: &mut K, octets: &[u8]) -> Result<(), Failed>
    ensures faults { K.faults sink.new ≡ count_after (is_err result) (K.faults sink.old) }
    ensures ok { OnOk result (Appends (K.written sink.old) (K.written sink.new) octets.now) }
    ensures front { AppendsFront (K.written sink.old) (K.written sink.new) octets.now }
{
    let mut done = 0;
    while done < octets.len() {
        let count = sink.write(&octets[done..])?;
        if count == 0 {
            return Err(Failed);
        }
        done += count;
    }
    Ok(())
}
