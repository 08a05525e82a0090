//! Lines that are refused, and lines that aren't.

use crate::states::{behind, take};
use net_types::OutOfMemory;
use script_text::{Line, LineRefusal, ReadFault, ScriptState, read_line, read_string};
use std::alloc::Global;
use std::process::Abort;

/// Two nodes with a link.
const TWO: &str = "node a 10.0.1.1\nnode b 10.0.3.1\nlink a:1 b:1\nroute a 10.0.0.0/8 via 1\n";

/// The same, and an event.
const BEGUN: &str =
    "node a 10.0.1.1\nnode b 10.0.3.1\nlink a:1 b:1\nroute a 10.0.0.0/8 via 1\ntick *\n";

const VERSION: &str = "# labels have a VPI\nversion 2\n";

/// Lines that fail the test that is named and none before it, behind no line.
const FIRST: &str = "UnknownWord nodes a 10.0.1.1
UnknownWord Node a 10.0.1.1
BadByte tick \u{7f}*
BadByte # \u{7}
BadByte tick \r*
Arity node a
Arity node a 10.0.1.1 10.0.1.2
BadName node 1a 10.0.1
BadName node aB 10.0.1.1
BadName node abcdefghijklmnopq 10.0.1.1
BadAddress node a 10.0.1
BadAddress node a 10.0.1.256
BadAddress node a 10.0.01.1
Arity cells a
BadName cells A 0
BadNumber cells c 0
BadNumber cells c 16385
BadNumber cells c 01
BadNumber cells c +1
UnknownName cells c 1
Arity labels a 1 40
Arity labels a 1 40 50 60
BadName labels A 0 31 30
BadNumber labels c 0 40 50
BadNumber labels c 9 40 50
BadNumber labels c 1 31 50
BadNumber labels c 1 40 1024
BadNumber labels c 1 40 39
BadNumber labels c 1 0/40 0/50
UnknownName labels c 1 40 50
Arity link a:1
BadPlace link a:0 b:2
BadPlace link a:9 b:2
BadPlace link a b:2
BadPlace link A:1 b:2
BadPlace link a:1 b:c
Arity route a 10.0.0.0/8
Arity route a 10.0.0.0/8 via 1 2
UnknownWord route A 10.0.0.1/8 over 0
UnknownWord route A 10.0.0.1/8 via
UnknownWord route A 10.0.0.1/8 local 1
BadName route A 10.0.0.1/8 via 0
BadPrefix route c 10.0.0.1/8 via 0
BadPrefix route c 10.0.0.0/33 local
BadPrefix route c 10.0.0.0 local
BadNumber route c 10.0.0.0/8 via 9
Arity policy
Arity policy xy 1
UnknownWord policy always
UnknownWord policy yx 0 0
BadNumber policy xy 0 1
BadNumber policy xy 65536 1
BadNumber policy xy 1 65
Arity timers 1 2
BadNumber timers 0 1 1
BadNumber timers 1 65536 1
BadNumber timers 1 1 0
Arity version
BadNumber version 3
BadNumber version 0
";

/// The same behind `VERSION`.
const IN_VERSION: &str = "BadChannel labels c 1 40 50
BadChannel labels c 1 0/31 0/50
BadChannel labels c 1 16/40 16/50
BadChannel labels c 1 0/40 0/1024
BadNumber labels c 1 1/40 0/1023
UnknownName labels c 1 0/40 15/1023
Late version 2
";

/// The same behind `TWO`.
const BEHIND_TWO: &str = "DuplicateName node a 10.0.4.1
UnknownName link c:1 c:1
UnknownName link a:1 c:1
SelfLink link a:1 a:1
PortTaken link a:1 b:2
PortTaken link a:2 b:1
UnknownName route c 10.0.0.0/8 via 1
NoLink route a 10.0.0.0/8 via 2
Duplicate route a 10.0.0.0/8 via 1
Duplicate route a 10.0.0.0/8 local
Late version 2
";

/// The same behind `BEGUN`.
const BEHIND_EVENTS: &str = "Late node a 10.0.1.1
Late cells c 1
Late labels c 1 40 50
Late link a:2 c:1
Late route c 10.0.0.0/8 local
Late policy never
Late timers 1 1 1
Arity send a
BadName send A 0
BadHex send c 0
BadHex send c 0g
UnknownName send c 00
Arity carry
Arity lose a:1 b:1
BadPlace carry a:9
BadPlace lose a:C
BadPlace lose :1
UnknownName carry c:c
UnknownName lose c:1
NoLink carry a:2
NoLink lose b:8
Arity tick
BadName tick **
UnknownName tick c
Arity tickswitch a b
BadName tickswitch *
UnknownName tickswitch c
Arity restart
BadName restart *
UnknownName restart c
Arity restartswitch
BadName restartswitch *
UnknownName restartswitch c
Arity run
BadNumber run 0
BadNumber run 100001
Arity forge a:1 0/15
BadPlace forge a:9 256/15 0
BadChannel forge c:1 256/15 0
BadChannel forge c:1 0/65536 0
BadChannel forge c:1 0 0
BadHex forge c:1 0/15 0
UnknownName forge c:1 0/15 00
NoLink forge a:2 255/65535 00
Arity setroute a 10.0.0.0/8
UnknownWord setroute A 10.0.0.1/8 over 0
UnknownWord setroute A 10.0.0.1/8 via
BadName setroute A 10.0.0.1/8 via 0
BadPrefix setroute c 10.0.0.1/8 via 0
BadNumber setroute c 10.0.0.0/8 via 0
UnknownName setroute c 10.0.0.0/8 via 2
NoLink setroute a 10.0.0.0/8 via 2
Arity unroute a
BadName unroute A 10.0.0.1/8
BadPrefix unroute c 10.0.0.1/8
UnknownName unroute c 10.0.0.0/8
NoPrefix unroute a 10.0.0.0/9
NoPrefix unroute b 10.0.0.0/8
";

/// Lines, and those that are refused behind them.
const REFUSED: [(&str, &str); 4] = [
    ("", FIRST),
    (VERSION, IN_VERSION),
    (TWO, BEHIND_TWO),
    (BEGUN, BEHIND_EVENTS),
];

/// What was refused, if it was.
fn refused(read: Result<Line, ReadFault>) -> Result<Option<LineRefusal>, OutOfMemory> {
    match read {
        Ok(_) => Ok(None),
        Err(ReadFault::Refused(refusal)) => Ok(Some(refusal)),
        Err(ReadFault::OutOfMemory(error)) => Err(error),
    }
}

fn refusal(state: &mut ScriptState, line: &[u8]) -> Result<Option<LineRefusal>, OutOfMemory> {
    refused(read_line(state, line))
}

fn string_refusal(
    state: &mut ScriptState,
    text: &[u8],
) -> Result<Option<LineRefusal>, OutOfMemory> {
    refused(read_string(state, text))
}

/// A line is refused for this, or isn't.
fn assert_refusal(
    rt: &impl Abort,
    found: Option<LineRefusal>,
    want: Option<LineRefusal>,
    line: &str,
) {
    assert_eq!(rt; found, want, "{line:?}");
}

fn is_named(alloc: Global, refusal: LineRefusal, name: &str) -> Result<bool, OutOfMemory> {
    Ok(format!(in alloc; "{refusal:?}")?.as_str() == name)
}

/// Whether the line of a row is refused now, for what stands before it.
fn is_refused_now(alloc: Global, state: &mut ScriptState, row: &str) -> Result<bool, OutOfMemory> {
    let Some((name, line)) = row.split_once(' ') else {
        return Ok(false);
    };
    match refusal(state, line.as_bytes())? {
        Some(refusal) => is_named(alloc, refusal, name),
        None => Ok(false),
    }
}

fn is_refused(alloc: Global, before: &str, row: &str) -> Result<bool, ReadFault> {
    let mut state = behind(alloc, before)?;
    Ok(is_refused_now(alloc, &mut state, row)?)
}

#[test]
fn lines_are_refused_by_the_first_test_that_fails(rt: HostRuntime) -> Result<(), ReadFault> {
    for &(before, rows) in &REFUSED {
        for row in rows.lines() {
            assert!(rt; is_refused(rt.alloc(), before, row)?, "{row}");
        }
    }
    Ok(())
}

fn repeat(state: &mut ScriptState, line: &[u8], times: u32) -> Result<(), ReadFault> {
    for _ in 0..times {
        take(state, line)?;
    }
    Ok(())
}

/// A line with a number in it.
fn numbered(alloc: Global, front: &str, number: u32, back: &str) -> Result<String, OutOfMemory> {
    Ok(format!(in alloc; "{front}{number}{back}")?)
}

/// Reads so many lines, each with its number in it, from 0.
fn take_numbered(
    alloc: Global,
    state: &mut ScriptState,
    front: &str,
    count: u32,
    back: &str,
) -> Result<(), ReadFault> {
    for number in 0..count {
        let line = numbered(alloc, front, number, back)?;
        take(state, line.as_bytes())?;
    }
    Ok(())
}

/// Lines, how often each comes, and one that is too many behind them: 64 nodes; 2,000,000 ticks, 100,000 rounds and
/// 200,000 event lines, of which `tick *` is one.
const LIMITS: [(&str, u32, &str); 4] = [
    ("", 0, "node m 10.0.1.1"),
    ("tick *", 15_625, "tick n0"),
    ("run 100000", 1, "run 1"),
    ("carry n0:c", 184_374, "restart n0"),
];

fn assert_limits(rt: &impl Abort, alloc: Global, state: &mut ScriptState) -> Result<(), ReadFault> {
    take_numbered(alloc, state, "node n", 64, " 10.0.1.1")?;
    for &(line, times, next) in &LIMITS {
        repeat(state, line.as_bytes(), times)?;
        let found = refusal(state, next.as_bytes())?;
        assert_refusal(rt, found, Some(LineRefusal::TooMany), next);
    }
    Ok(())
}

#[test]
fn a_script_has_its_limits(rt: HostRuntime) -> Result<(), ReadFault> {
    let mut state = ScriptState::new(rt.alloc())?;
    assert_limits(&rt, rt.alloc(), &mut state)
}

/// A line that is refused behind 256 routes and the lines before it, why, and a line that isn't refused then. Lines
/// of the topology and changes count, and each change is judged by those before it.
const ROUTES: [(&str, LineRefusal, &str); 4] = [
    ("route a 10.1.0.0/24 local", LineRefusal::TableFull, ""),
    (
        "setroute a 10.1.0.0/24 local",
        LineRefusal::TableFull,
        "unroute a 10.0.0.0/24",
    ),
    (
        "unroute a 10.0.0.0/24",
        LineRefusal::NoPrefix,
        "setroute a 10.1.0.0/24 local",
    ),
    (
        "setroute a 10.2.0.0/24 local",
        LineRefusal::TableFull,
        "setroute a 10.1.0.0/24 local",
    ),
];

fn assert_routes(rt: &impl Abort, alloc: Global, state: &mut ScriptState) -> Result<(), ReadFault> {
    take_numbered(alloc, state, "route a 10.0.", 256, ".0/24 local")?;
    for &(next, refused, then) in &ROUTES {
        let found = refusal(state, next.as_bytes())?;
        assert_refusal(rt, found, Some(refused), next);
        take(state, then.as_bytes())?;
    }
    Ok(())
}

#[test]
fn a_table_has_its_limit(rt: HostRuntime) -> Result<(), ReadFault> {
    let mut state = behind(rt.alloc(), "node a 10.0.1.1")?;
    assert_routes(&rt, rt.alloc(), &mut state)
}

/// Lines behind `TWO`: the first octets, how often `0` follows, what ends the line, and the refusal. A
/// line has 4,096 octets and its end, and a forged frame 1,528.
const LONGEST: [(&str, usize, &str, Option<LineRefusal>); 5] = [
    ("#", 4095, "", None),
    ("#", 4095, "\r\n", None),
    ("#", 4096, "\n", Some(LineRefusal::LineTooLong)),
    ("forge a:1 0/15 ", 3056, "", None),
    ("forge a:1 0/15 ", 3058, "", Some(LineRefusal::BadLength)),
];

fn long_line(alloc: Global, first: &str, count: usize, end: &str) -> Result<Vec<u8>, OutOfMemory> {
    let mut line = first.as_bytes().to_vec(alloc)?;
    line.extend_from_slice(vec![in alloc; b'0'; count]?.as_slice())?;
    line.extend_from_slice(end.as_bytes())?;
    Ok(line)
}

fn assert_lengths(
    rt: &impl Abort,
    alloc: Global,
    state: &mut ScriptState,
) -> Result<(), ReadFault> {
    for &(first, count, end, refused) in &LONGEST {
        let line = long_line(alloc, first, count, end)?;
        let found = refusal(state, line.as_slice())?;
        assert_eq!(rt; found, refused, "{first}{count}");
    }
    Ok(())
}

#[test]
fn lines_and_frames_have_a_greatest_length(rt: HostRuntime) -> Result<(), ReadFault> {
    let mut state = behind(rt.alloc(), TWO)?;
    assert_lengths(&rt, rt.alloc(), &mut state)
}

/// Lines without words, comments, and tabs, CR LF and LF round words, and whether they are blank.
const LINES: [(&str, bool); 5] = [
    ("", true),
    (" \t\r\n", true),
    ("\t#node A\n", true),
    ("\ttick\t a \r\n", false),
    ("send a 00Ff", false),
];

fn is_blank(state: &mut ScriptState, line: &[u8]) -> Result<bool, ReadFault> {
    Ok(matches!(read_line(state, line)?, Line::Blank))
}

fn assert_blank(rt: &impl Abort, state: &mut ScriptState) -> Result<(), ReadFault> {
    for &(line, want) in &LINES {
        assert_eq!(rt; is_blank(state, line.as_bytes())?, want, "{line:?}");
    }
    Ok(())
}

#[test]
fn lines_are_blank_or_have_words(rt: HostRuntime) -> Result<(), ReadFault> {
    let mut state = behind(rt.alloc(), TWO)?;
    assert_blank(&rt, &mut state)
}

/// Strings of a document, which have no end, and why they are refused.
const STRINGS: [(&str, Option<LineRefusal>); 2] = [
    ("tick *", None),
    ("tick *\n", Some(LineRefusal::BadByte)),
];

fn assert_strings(rt: &impl Abort, state: &mut ScriptState) -> Result<(), OutOfMemory> {
    for &(text, want) in &STRINGS {
        let found = string_refusal(state, text.as_bytes())?;
        assert_refusal(rt, found, want, text);
    }
    Ok(())
}

#[test]
fn strings_have_no_end(rt: HostRuntime) -> Result<(), ReadFault> {
    let mut state = ScriptState::new(rt.alloc())?;
    Ok(assert_strings(&rt, &mut state)?)
}
