//! Lines into a task, over sources and sinks in pieces, and calls that fail.

use crate::echo::Echo;
use crate::shared::{Task, assert_ends, behind_long_lines, outcome};
use lab_io::{MemSink, SureSink, SureSource};
use line_by_line::{Ending, LineFault, run_lines};
use net_types::OutOfMemory;
use std::alloc::Global;

/// How the task that writes each line again ends over a source and a sink that move one octet at a time, where
/// this read and this write fail, and what is written.
fn echo(
    alloc: Global,
    input: &[u8],
    read: u32,
    write: u32,
) -> Result<(Result<Ending, LineFault>, MemSink), OutOfMemory> {
    outcome(alloc, Task::Echo, input, 1, read, write)
}

/// An input, what is written, and how it ends.
const INPUTS: [(&str, &str, Ending); 5] = [
    ("", "end\n", Ending::Done),
    ("a\r\nbc\n", "a\r\nbc\nend\n", Ending::Done),
    ("a\n\nbc", "a\n\nbcend\n", Ending::Done),
    ("a\nstop here\nb\n", "a\nstopped\n", Ending::Denied),
    ("a\nstop", "a\nstopped\n", Ending::Denied),
];

#[test]
fn a_task_is_told_lines_up_to_the_one_that_ends_it(rt: HostRuntime) -> Result<(), OutOfMemory> {
    assert_ends(&rt, rt.alloc(), Task::Echo, 1, &INPUTS)
}

#[test]
fn a_long_line_ends_a_task(rt: HostRuntime) -> Result<(), OutOfMemory> {
    for (length, want, ending) in [(4096, 4100, Ending::Done), (4097, 5, Ending::Refused)] {
        let line = vec![in rt.alloc(); b'x'; length]?;
        let (outcome, sink) = echo(rt.alloc(), line.as_slice(), 0, 0)?;
        assert_eq!(rt; outcome, Ok(ending), "{length}");
        assert_eq!(rt; sink.written().len(), want, "{length}");
    }
    Ok(())
}

#[test]
fn an_input_that_is_too_long_ends_a_task(rt: HostRuntime) -> Result<(), OutOfMemory> {
    for (end, want, ending) in [
        ("x", 16_777_216 + 4, Ending::Done),
        ("\n\n", 16_777_216 + 5, Ending::Refused),
    ] {
        let mut source = SureSource::new(behind_long_lines(rt.alloc(), end)?, 65_536);
        let mut sink = SureSink::new();
        let outcome = run_lines(rt.alloc(), &mut Echo { octets: 0 }, &mut source, &mut sink);
        assert_eq!(rt; outcome, Ok(ending), "{end:?}");
        assert_eq!(rt; sink.taken(), want, "{end:?}");
    }
    Ok(())
}

/// Six octets are read, and then the end.
#[test]
fn each_read_that_fails_is_told(rt: HostRuntime) -> Result<(), OutOfMemory> {
    for read in 1..=7 {
        let (outcome, sink) = echo(rt.alloc(), b"a\nbc\nd", read, 0)?;
        assert_eq!(rt; outcome, Err(LineFault::Read), "read {read}");
        assert!(rt; sink.written().is_empty(), "read {read}");
    }
    Ok(())
}

/// Of 70,000 octets in whole lines the last that are held aren't written.
#[test]
fn a_read_that_fails_leaves_what_was_written(rt: HostRuntime) -> Result<(), OutOfMemory> {
    let input = b"x\n".repeat(rt.alloc(), 35_000)?;
    let (outcome, sink) = echo(rt.alloc(), input.as_slice(), 70_001, 0)?;
    assert_eq!(rt; outcome, Err(LineFault::Read));
    assert_eq!(rt; sink.written().len(), 65_536);
    Ok(())
}

#[test]
fn each_write_that_fails_is_told(rt: HostRuntime) -> Result<(), OutOfMemory> {
    let want = b"a\nbc\nend\n";
    for write in 1..=want.len() {
        let (outcome, sink) = echo(rt.alloc(), b"a\nbc\n", 0, write as u32)?;
        assert_eq!(rt; outcome, Err(LineFault::Write), "write {write}");
        assert!(rt; sink.written() == &want[..write - 1], "write {write}");
    }
    Ok(())
}
