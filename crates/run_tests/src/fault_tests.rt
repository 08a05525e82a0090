//! Reads and writes that fail, and runs of which none does.

use crate::command_tests::{GOOD_TRACE, NO, REUSED_TRACE, YES};
use crate::script_tests::{
    LOSING, LOSING_REPORT, ONE_NODE, ONE_PACKET, OVER_TWO_LINKS, THREE_ROUTERS, TWO_MET, USAGE,
    assert_run, outcome_over, source_of, sure_status, text_of,
};
use lab_io::read_to_end;
use std::alloc::Global;
use std::process::Abort;
use std::test::Fail;
use world::Meter;

const ONE_FATE: &str =
    "deliver c 1 4500001c000100000211a0cf0a0001010a0003011389138a00080000\nend sent 1 delivered 1 dropped 0 refused 0\n";

const ONE_REPORT: &str =
    "deliver a 1 4500001c0001000004119ecf0a0001010a0003011389138a00080000\nend events 1 sent 1 delivered 1 dropped 0 refused 0 losses 0 redirects 0 switched 0 chance 0\n";

const ONE_DOCUMENT: &str =
    "topology = [\"node a 10.0.1.1\", \"route a 10.0.0.0/8 local\"]\nevents = [\"send a 4500001c0001000004119ecf0a0001010a0003011389138a00080000\"]\n";

/// A run and its status, how many octets a read or a write has, and how many reads and writes there are.
struct FailingRun {
    words: &'static [&'static str],
    network: &'static str,
    events: &'static str,
    report: &'static str,
    status: u8,
    piece: usize,
    reads: u32,
    writes: u32,
}

const FAILING_RUNS: [FailingRun; 13] = [
    FailingRun {
        words: &["replay"],
        network: TWO_MET,
        events: LOSING,
        report: LOSING_REPORT,
        status: 0,
        piece: 1,
        reads: 401,
        writes: 216,
    },
    FailingRun {
        words: &["replay"],
        network: TWO_MET,
        events: LOSING,
        report: LOSING_REPORT,
        status: 0,
        piece: 7,
        reads: 59,
        writes: 31,
    },
    FailingRun {
        words: &["replay"],
        network: TWO_MET,
        events: LOSING,
        report: LOSING_REPORT,
        status: 0,
        piece: 4096,
        reads: 2,
        writes: 1,
    },
    FailingRun {
        words: &["replay", "toml"],
        network: ONE_DOCUMENT,
        events: "",
        report: ONE_REPORT,
        status: 0,
        piece: 1,
        reads: 137,
        writes: 162,
    },
    FailingRun {
        words: &["replay", "toml"],
        network: ONE_DOCUMENT,
        events: "",
        report: ONE_REPORT,
        status: 0,
        piece: 7,
        reads: 21,
        writes: 24,
    },
    FailingRun {
        words: &["replay", "toml"],
        network: ONE_DOCUMENT,
        events: "",
        report: ONE_REPORT,
        status: 0,
        piece: 4096,
        reads: 2,
        writes: 1,
    },
    FailingRun {
        words: &["ideal"],
        network: THREE_ROUTERS,
        events: OVER_TWO_LINKS,
        report: ONE_FATE,
        status: 0,
        piece: 7,
        reads: 36,
        writes: 16,
    },
    FailingRun {
        words: &["audit"],
        network: GOOD_TRACE,
        events: "",
        report: YES,
        status: 0,
        piece: 1,
        reads: 126,
        writes: 27,
    },
    FailingRun {
        words: &["audit"],
        network: GOOD_TRACE,
        events: "",
        report: YES,
        status: 0,
        piece: 7,
        reads: 19,
        writes: 4,
    },
    FailingRun {
        words: &["audit"],
        network: GOOD_TRACE,
        events: "",
        report: YES,
        status: 0,
        piece: 4096,
        reads: 2,
        writes: 1,
    },
    FailingRun {
        words: &["audit"],
        network: REUSED_TRACE,
        events: "",
        report: NO,
        status: 6,
        piece: 1,
        reads: 159,
        writes: 11,
    },
    FailingRun {
        words: &["audit"],
        network: REUSED_TRACE,
        events: "",
        report: NO,
        status: 6,
        piece: 7,
        reads: 23,
        writes: 2,
    },
    FailingRun {
        words: &["audit"],
        network: REUSED_TRACE,
        events: "",
        report: NO,
        status: 6,
        piece: 4096,
        reads: 1,
        writes: 1,
    },
];

/// A read fails, counted from 1: the status is 3, nothing is written, and what that read would have given
/// is left.
fn assert_read_fails(
    rt: &impl Abort,
    alloc: Global,
    row: &FailingRun,
    text: &str,
    failing: u32,
) -> Result<(), Fail> {
    let mut source = source_of(alloc, text, row.piece, &[failing])?;
    let run = outcome_over(alloc, row.words, &mut source, row.piece, &[])?;
    assert_run(rt, &run, row.words, text, "", 3);
    let left = read_to_end(alloc, &mut source, 4096)?;
    let read = row.piece.saturating_mul(failing.saturating_sub(1) as usize);
    assert!(rt; text.as_bytes().ends_with(left.as_slice()));
    assert_eq!(rt; left.len(), text.len().saturating_sub(read));
    Ok(())
}

/// A write fails, counted from 1: the status is 4, and what is written is what the writes before it took,
/// a front of the report.
fn assert_write_fails(
    rt: &impl Abort,
    alloc: Global,
    row: &FailingRun,
    text: &str,
    failing: u32,
) -> Result<(), Fail> {
    let mut source = source_of(alloc, text, row.piece, &[])?;
    let (given, sink) = outcome_over(alloc, row.words, &mut source, row.piece, &[failing])?;
    let written = row.piece.saturating_mul(failing.saturating_sub(1) as usize);
    assert_eq!(rt; given, 4);
    assert!(rt; row.report.as_bytes().starts_with(sink.written()));
    assert_eq!(rt; sink.written().len(), written);
    Ok(())
}

/// Only calls behind the last read and the last write would fail: all of the report is written.
fn assert_none_fails(
    rt: &impl Abort,
    alloc: Global,
    row: &FailingRun,
    text: &str,
) -> Result<(), Fail> {
    let next_read = row.reads.saturating_add(1);
    let next_write = row.writes.saturating_add(1);
    let mut source = source_of(alloc, text, row.piece, &[next_read])?;
    let run = outcome_over(alloc, row.words, &mut source, row.piece, &[next_write])?;
    assert_run(rt, &run, row.words, text, row.report, row.status);
    Ok(())
}

fn assert_each_read_fails(
    rt: &impl Abort,
    alloc: Global,
    row: &FailingRun,
    text: &str,
) -> Result<(), Fail> {
    for failing in 1..=row.reads {
        assert_read_fails(rt, alloc, row, text, failing)?;
    }
    Ok(())
}

fn assert_each_write_fails(
    rt: &impl Abort,
    alloc: Global,
    row: &FailingRun,
    text: &str,
) -> Result<(), Fail> {
    for failing in 1..=row.writes {
        assert_write_fails(rt, alloc, row, text, failing)?;
    }
    Ok(())
}

fn assert_faults_end(rt: &impl Abort, alloc: Global, row: &FailingRun) -> Result<(), Fail> {
    let text = text_of(alloc, &[(row.network, 1), (row.events, 1)])?;
    assert_each_read_fails(rt, alloc, row, text.as_str())?;
    assert_each_write_fails(rt, alloc, row, text.as_str())?;
    assert_none_fails(rt, alloc, row, text.as_str())
}

/// Each read and each write fails in turn. Where only calls behind them would fail, all of the report
/// is written.
#[test]
fn faults_end_the_run(rt: HostRuntime) -> Result<(), Fail> {
    for row in &FAILING_RUNS {
        assert_faults_end(&rt, rt.alloc(), row)?;
    }
    Ok(())
}

/// Words, an input, and the status that they give.
const SURE_RUNS: [(&[&str], &str, u8); 9] = [
    (&["replay"], ONE_NODE, 0),
    (&["ideal"], ONE_NODE, 0),
    (&["decode", "gsmp"], "00\n", 0),
    (&["ideal"], "tick z\n", 2),
    (&["replay", "toml"], "", 0),
    (&["replay", "toml"], "x", 2),
    (&["audit"], GOOD_TRACE, 0),
    (&["audit"], "", 2),
    (&["audit"], REUSED_TRACE, 6),
];

/// Where nothing fails, the words and the lines of the input give the status.
#[test]
fn sure_runs_end_by_words_and_lines(rt: HostRuntime) -> Result<(), Fail> {
    for &(texts, input, status) in &SURE_RUNS {
        let given = sure_status(rt.alloc(), texts, input, &mut Meter::new())?;
        assert_eq!(rt; given, status, "{input}");
    }
    Ok(())
}

/// Words, the reads that fail, how many octets a write has, and the status and the text that they give.
struct EarlyEnd {
    words: &'static [&'static str],
    failing_reads: &'static [u32],
    piece: usize,
    status: u8,
    written: &'static str,
}

/// A source that fails before its script is read; a sink that takes nothing; and words that ask for
/// nothing, before a source that would fail, to a sink that takes all and to one that takes nothing.
const EARLY_ENDS: [EarlyEnd; 4] = [
    EarlyEnd {
        words: &["replay"],
        failing_reads: &[2],
        piece: 4096,
        status: 3,
        written: "",
    },
    EarlyEnd {
        words: &["replay"],
        failing_reads: &[],
        piece: 0,
        status: 4,
        written: "",
    },
    EarlyEnd {
        words: &["replay", "x"],
        failing_reads: &[1],
        piece: 4096,
        status: 1,
        written: USAGE,
    },
    EarlyEnd {
        words: &["replay", "x"],
        failing_reads: &[1],
        piece: 0,
        status: 4,
        written: "",
    },
];

fn assert_early_end(rt: &impl Abort, alloc: Global, row: &EarlyEnd) -> Result<(), Fail> {
    let script = text_of(alloc, &[(ONE_NODE, 1), (ONE_PACKET, 1)])?;
    let mut source = source_of(alloc, script.as_str(), 64, row.failing_reads)?;
    let run = outcome_over(alloc, row.words, &mut source, row.piece, &[])?;
    assert_run(
        rt,
        &run,
        row.words,
        script.as_str(),
        row.written,
        row.status,
    );
    Ok(())
}

#[test]
fn statuses_tell_who_failed(rt: HostRuntime) -> Result<(), Fail> {
    for row in &EARLY_ENDS {
        assert_early_end(&rt, rt.alloc(), row)?;
    }
    Ok(())
}
