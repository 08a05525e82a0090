//! Lines of scripts, read and written back.

use lab_text::Text;
use line_text::write_line;
use net_types::OutOfMemory;
use script_text::{ReadFault, ScriptState, read_line};
use std::alloc::Global;
use std::process::Abort;

/// A flow of four nodes in a row that is cut through, and then a line of each other kind.
const SCRIPT: &str = "node n1 10.0.1.1
node n2 10.0.2.1
node n3 10.0.3.1
node n4 10.0.4.1
link n1:2 n2:1
link n2:2 n3:1
link n3:2 n4:1
route n1 10.0.0.0/8 via 2
route n2 10.0.0.0/8 via 2
route n3 10.0.0.0/8 via 2
route n4 10.0.0.0/8 local
cells n1 16384
labels n2 1 40 1023
policy never
policy xy 4 10
timers 60 20 40
tick *
run 200
send n1 4500001c00010000201182cf0a0001010a0004011389138a00080000
run 100

carry n1:c
carry n1:0
lose n2:2
tick n1
tickswitch n2
restart n3
restartswitch n4
forge n1:c 255/65535 00ff
setroute n1 10.0.4.0/24 via 2
setroute n1 10.0.5.0/24 local
unroute n1 10.0.4.0/24
";

/// Labels with a VPI.
const WITH_PATHS: &str = "version 2
node n1 10.0.1.1
labels n1 8 0/32 15/1023
";

/// A line with an LF.
fn whole(alloc: Global, line: &str) -> Result<String, OutOfMemory> {
    Ok(format!(in alloc; "{line}\n")?)
}

/// Whether a line with an LF is written as it was read.
fn comes_back(alloc: Global, state: &mut ScriptState, line: &str) -> Result<bool, ReadFault> {
    let whole = whole(alloc, line)?;
    let said = read_line(state, whole.as_bytes())?;
    let mut text = Text::new(alloc);
    write_line(&said, state.topology(), &mut text)?;
    Ok(text.as_slice() == whole.as_bytes())
}

/// Each line of a script is written as it was read.
fn assert_come_back(
    rt: &impl Abort,
    alloc: Global,
    state: &mut ScriptState,
    script: &str,
) -> Result<(), ReadFault> {
    for line in script.lines() {
        assert!(rt; comes_back(alloc, state, line)?, "{line}");
    }
    Ok(())
}

#[test]
fn each_line_is_written_as_it_was_read(rt: HostRuntime) -> Result<(), ReadFault> {
    for &script in &[SCRIPT, WITH_PATHS] {
        let mut state = ScriptState::new(rt.alloc())?;
        assert_come_back(&rt, rt.alloc(), &mut state, script)?;
    }
    Ok(())
}
