//! Lines, reports, and whole inputs and outputs, over sources and sinks in pieces, and calls that fail.

use crate::shared::behind_long_lines;
use lab_io::{
    Failed, InputFault, LineReader, MemSink, MemSource, NextLine, ReportWriter, Source, SureSource,
    read_to_end, write_all,
};
use net_types::OutOfMemory;
use std::alloc::Global;
use std::process::Abort;

const SCRIPT: &str = "node a 10.0.1.1\r\n\n# \rthe end\nsend a 45";

/// The lines of a source, each with `|` behind it, and what came behind them.
fn read_lines<S: Source>(
    alloc: Global,
    source: &mut S,
) -> Result<(Vec<u8>, Result<NextLine, Failed>), OutOfMemory> {
    let mut reader = LineReader::open(alloc, 4099)?;
    let mut lines = Vec::new(alloc);
    for _ in 0..10 {
        match reader.next(source) {
            Ok(NextLine::Line { place, len }) => {
                lines.extend_from_slice(&reader.octets()[place..place + len])?;
                lines.push(b'|')?;
            }
            other => return Ok((lines, other)),
        }
    }
    Ok((lines, Ok(NextLine::End)))
}

#[test]
fn lines_come_whole_in_pieces(rt: HostRuntime) -> Result<(), OutOfMemory> {
    let mut source = SureSource::new(SCRIPT.as_bytes().to_vec(rt.alloc())?, 7);
    let (lines, last) = read_lines(rt.alloc(), &mut source)?;
    let want = b"node a 10.0.1.1\r\n|\n|# \rthe end\n|send a 45|";
    assert!(rt; lines.as_slice() == want.as_slice());
    assert_eq!(rt; last, Ok(NextLine::End));
    Ok(())
}

/// The lines that stand whole before the read that fails are given, and then the failure is told.
#[test]
fn a_read_that_fails_comes_behind_the_lines_before_it(rt: HostRuntime) -> Result<(), OutOfMemory> {
    let failing = [25].to_vec(rt.alloc())?;
    let mut source = MemSource::new(SCRIPT.as_bytes().to_vec(rt.alloc())?, 1, failing);
    let (lines, last) = read_lines(rt.alloc(), &mut source)?;
    assert!(rt; lines.as_slice() == b"node a 10.0.1.1\r\n|\n|".as_slice());
    assert_eq!(rt; last, Err(Failed));
    Ok(())
}

/// How many lines these octets have, and what comes behind them.
fn count_lines(
    alloc: Global,
    octets: Vec<u8>,
) -> Result<(u32, Result<NextLine, Failed>), OutOfMemory> {
    let mut reader = LineReader::open(alloc, 65_536)?;
    let mut source = SureSource::new(octets, 65_536);
    for count in 0..5000 {
        match reader.next(&mut source) {
            Ok(NextLine::Line { .. }) => (),
            other => return Ok((count, other)),
        }
    }
    Ok((5000, Ok(NextLine::End)))
}

/// How often `x` stands in a line, what ends it, and how many lines are given and what comes behind
/// them.
const LENGTHS: [(usize, &str, u32, NextLine); 4] = [
    (4096, "", 1, NextLine::End),
    (4096, "\r\n\n", 2, NextLine::End),
    (4097, "\r\n", 0, NextLine::LongLine),
    (20_000, "\nnode", 0, NextLine::LongLine),
];

#[test]
fn long_lines_are_not_given(rt: HostRuntime) -> Result<(), OutOfMemory> {
    for &(length, end, count, last) in &LENGTHS {
        let mut octets = vec![in rt.alloc(); b'x'; length]?;
        octets.extend_from_slice(end.as_bytes())?;
        assert_eq!(rt;
            count_lines(rt.alloc(), octets)?,
            (count, Ok(last)),
            "{length} {end:?}"
        );
    }
    Ok(())
}

#[test]
fn an_input_ends_at_its_greatest_octet(rt: HostRuntime) -> Result<(), OutOfMemory> {
    let whole = behind_long_lines(rt.alloc(), "x")?;
    assert_eq!(rt; count_lines(rt.alloc(), whole)?, (4096, Ok(NextLine::End)));
    let longer = behind_long_lines(rt.alloc(), "\n\n")?;
    assert_eq!(rt;
        count_lines(rt.alloc(), longer)?,
        (4096, Ok(NextLine::PastEnd))
    );
    Ok(())
}

/// Puts two lines of 12 and 4 octets through a room of four, and flushes.
fn write_report(alloc: Global, sink: &mut MemSink) -> Result<Result<(), Failed>, OutOfMemory> {
    let mut writer = ReportWriter::open(alloc, 4)?;
    for line in ["deliver a 1\n", "", "end\n"] {
        if writer.put(line.as_bytes(), sink).is_err() {
            return Ok(Err(Failed));
        }
    }
    Ok(writer.flush(sink))
}

/// A write fails or none does, as it is to be, and this is written.
fn assert_written(
    rt: &impl Abort,
    outcome: Result<(), Failed>,
    sink: &MemSink,
    fails: bool,
    want: &str,
) {
    assert_eq!(rt; outcome.is_err(), fails, "{want}");
    assert!(rt; sink.written() == want.as_bytes(), "{want}");
}

/// A write of four that fails, or none of them, and what is written then.
const WRITES: [(u32, &str); 2] = [(3, "deliver "), (5, "deliver a 1\nend\n")];

#[test]
fn a_report_is_written_up_to_the_write_that_fails(rt: HostRuntime) -> Result<(), OutOfMemory> {
    for &(call, want) in &WRITES {
        let mut sink = MemSink::new(rt.alloc(), 4096, [call].to_vec(rt.alloc())?)?;
        let outcome = write_report(rt.alloc(), &mut sink)?;
        assert_written(&rt, outcome, &sink, call <= 4, want);
    }
    Ok(())
}

/// Whether this is read of `SCRIPT` in six pieces of 7 and up to this limit, where this read fails; `None`: it
/// does.
fn is_input(
    alloc: Global,
    limit: usize,
    call: u32,
    want: Option<&str>,
) -> Result<bool, OutOfMemory> {
    let octets = SCRIPT.as_bytes().to_vec(alloc)?;
    let mut source = MemSource::new(octets, 7, [call].to_vec(alloc)?);
    match (read_to_end(alloc, &mut source, limit), want) {
        (Ok(octets), Some(want)) => Ok(octets.as_slice() == want.as_bytes()),
        (Err(InputFault::Failed), None) => Ok(true),
        (Err(InputFault::OutOfMemory(error)), _) => Err(error),
        _ => Ok(false),
    }
}

/// A limit, a read that fails, and what is read: the seventh meets the end, and none is made at the
/// limit.
const INPUTS: [(usize, u32, Option<&str>); 4] = [
    (39, 8, Some(SCRIPT)),
    (39, 7, None),
    (39, 2, None),
    (10, 3, Some("node a 10.")),
];

#[test]
fn inputs_come_whole_or_up_to_the_limit(rt: HostRuntime) -> Result<(), OutOfMemory> {
    for &(limit, call, want) in &INPUTS {
        assert!(rt;
            is_input(rt.alloc(), limit, call, want)?,
            "{limit}, read {call}"
        );
    }
    Ok(())
}

/// A write of six that fails, or none of them, and what is written then.
const OUTPUTS: [(u32, &str); 2] = [(3, "node a 10.0.1."), (7, SCRIPT)];

#[test]
fn a_write_that_fails_leaves_the_pieces_before_it(rt: HostRuntime) -> Result<(), OutOfMemory> {
    for &(call, want) in &OUTPUTS {
        let mut sink = MemSink::new(rt.alloc(), 7, [call].to_vec(rt.alloc())?)?;
        let outcome = write_all(&mut sink, SCRIPT.as_bytes());
        assert_written(&rt, outcome, &sink, call <= 6, want);
    }
    Ok(())
}
