//! What tests of tasks share: how a task ends over a source and a sink in memory, and an input at its limit.

use crate::echo::Echo;
use audit_run::audit;
use console_run::console;
use lab_io::{MemSink, MemSource};
use line_by_line::{Ending, LineFault, run_lines};
use net_types::OutOfMemory;
use std::alloc::{AllocError, Global};
use std::process::Abort;

/// A task that takes lines.
#[derive(Clone, Copy)]
pub(crate) enum Task {
    /// It writes each line again.
    Echo,
    /// It audits a trace.
    Audit,
    /// It plays a console's session.
    Console,
}

/// How it ends over this source and this sink.
fn end(
    alloc: Global,
    task: Task,
    source: &mut MemSource,
    sink: &mut MemSink,
) -> Result<Ending, LineFault> {
    match task {
        Task::Echo => run_lines(alloc, &mut Echo { octets: 0 }, source, sink),
        Task::Audit => audit(alloc, source, sink),
        Task::Console => console(alloc, source, sink),
    }
}

/// How it ends over a source and a sink that move so many octets at a time, one at least, where this read and
/// this write fail, counted from 1, and what is written.
pub(crate) fn outcome(
    alloc: Global,
    task: Task,
    input: &[u8],
    piece: usize,
    read: u32,
    write: u32,
) -> Result<(Result<Ending, LineFault>, MemSink), OutOfMemory> {
    let failing = [read].to_vec(alloc)?;
    let mut source = MemSource::new(input.to_vec(alloc)?, piece.max(1), failing);
    let mut sink = MemSink::new(alloc, piece, [write].to_vec(alloc)?)?;
    let outcome = end(alloc, task, &mut source, &mut sink);
    Ok((outcome, sink))
}

/// Where nothing fails, each of these inputs has this written of it, and ends so.
pub(crate) fn assert_ends(
    rt: &impl Abort,
    alloc: Global,
    task: Task,
    piece: usize,
    rows: &[(&str, &str, Ending)],
) -> Result<(), OutOfMemory> {
    for (input, written, ending) in rows {
        let (outcome, sink) = outcome(alloc, task, input.as_bytes(), piece, 0, 0)?;
        assert_eq!(rt; outcome, Ok(*ending), "{input:?}");
        assert!(rt; sink.written() == written.as_bytes(), "{input:?}");
    }
    Ok(())
}

/// 4,095 lines of 4,097 octets, which end at octet 16,777,215, and this.
pub(crate) fn behind_long_lines(alloc: Global, end: &str) -> Result<Vec<u8>, AllocError> {
    let mut line = vec![in alloc; b'x'; 4096]?;
    line.push(b'\n')?;
    let mut octets = Vec::with_capacity(alloc, 16_777_217)?;
    for _ in 0..4095 {
        octets.extend_from_slice(line.as_slice())?;
    }
    octets.extend_from_slice(end.as_bytes())?;
    Ok(octets)
}
