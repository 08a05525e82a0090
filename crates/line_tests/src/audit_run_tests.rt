//! A trace from a source, and its verdict at a sink.

use crate::shared::{Task, assert_ends, outcome};
use line_by_line::{Ending, LineFault};
use net_types::OutOfMemory;

/// A trace, its verdict, and how its audit ends. Two links and no cell; a cell is carried from an empty
/// queue; a line stands behind the last one; and there is no last one.
const TRACES: [(&str, &str, Ending); 4] = [
    (
        "link a:1 b:1\nlink b:2 c:1\n# no cell\nend\n\n",
        "yes links 2 puts 0 binds 0\n",
        Ending::Done,
    ),
    (
        "link a:1 b:1\n\ntake a:1\nend\n",
        "no 3 Empty\n",
        Ending::Denied,
    ),
    (
        "link a:1 b:1\nend\nlost b:1",
        "refused 3 Late\n",
        Ending::Refused,
    ),
    ("link a:1 b:1\n", "refused 2 NoEnd\n", Ending::Refused),
];

#[test]
fn a_trace_has_its_verdict(rt: HostRuntime) -> Result<(), OutOfMemory> {
    assert_ends(&rt, rt.alloc(), Task::Audit, 7, &TRACES)
}

#[test]
fn a_read_that_fails_leaves_no_verdict(rt: HostRuntime) -> Result<(), OutOfMemory> {
    let (outcome, sink) = outcome(rt.alloc(), Task::Audit, b"link a:1 b:1\nend\n", 7, 3, 0)?;
    assert_eq!(rt; outcome, Err(LineFault::Read));
    assert!(rt; sink.written().is_empty());
    Ok(())
}
