//! A console's session from a source, and its report at a sink.

use crate::shared::{Task, assert_ends, outcome};
use line_by_line::{Ending, LineFault};
use net_types::OutOfMemory;

/// A session, its report, and how it ends. Lines stand before `ports`; a cell of a command is lost, and it is
/// sent again; no switch connects VCI 2000; no line is `ports`; and a line is refused behind a command that was
/// answered.
const SESSIONS: [(&str, &str, Ending); 5] = [
    ("\n# a\n\nclear 1\n", "refused 4 NoPorts\n", Ending::Refused),
    (
        "ports 2\nadd 1 40 2 41\nadd 1 40 2 42\nverify 1 40\ntick c\ntick s\nlose c\nrun 50\ntick c\ntick s\nrun 50\n",
        "done 1\nfailed 2 Busy\nat 3 2 41\nend commands 3 answered 3 branches 1\n",
        Ending::Done,
    ),
    (
        "ports 1\nadd 1 40 1 2000\ntick c\ntick s\nrun 50\n",
        "failed 1 OutOfRange\nend commands 1 answered 1 branches 0\n",
        Ending::Done,
    ),
    (
        "# no line\n\n",
        "end commands 0 answered 0 branches 0\n",
        Ending::Done,
    ),
    (
        "ports 1\nclear 1\ntick c\ntick s\nrun 50\ndelete 2 40\nrun 9\nports 1\nadd 1 40 1 41\n",
        "done 1\nfailed 2 NoPort\nrefused 8 Late\n",
        Ending::Refused,
    ),
];

#[test]
fn a_session_has_its_report(rt: HostRuntime) -> Result<(), OutOfMemory> {
    assert_ends(&rt, rt.alloc(), Task::Console, 7, &SESSIONS)
}

/// The read and the write of a session that fail, how it ends, and what is written by then.
const CUT_OFF: [(u32, u32, LineFault, &str); 2] = [
    (2, 0, LineFault::Read, ""),
    (0, 2, LineFault::Write, "end com"),
];

#[test]
fn a_session_that_is_cut_off_has_no_last_line(rt: HostRuntime) -> Result<(), OutOfMemory> {
    for &(read, write, fault, written) in &CUT_OFF {
        let (outcome, sink) = outcome(
            rt.alloc(),
            Task::Console,
            b"ports 1\ntick c\n",
            7,
            read,
            write,
        )?;
        assert_eq!(rt; outcome, Err(fault), "read {read}, write {write}");
        assert!(rt;
            sink.written() == written.as_bytes(),
            "read {read}, write {write}"
        );
    }
    Ok(())
}
