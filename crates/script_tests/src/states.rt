//! States of scripts behind lines of them.

use script_text::{ReadFault, ScriptState, read_line};
use std::alloc::Global;

/// Reads a line that isn't refused.
pub(crate) fn take(state: &mut ScriptState, line: &[u8]) -> Result<(), ReadFault> {
    let _said = read_line(state, line)?;
    Ok(())
}

fn take_all(state: &mut ScriptState, text: &str) -> Result<(), ReadFault> {
    for line in text.lines() {
        take(state, line.as_bytes())?;
    }
    Ok(())
}

/// The state behind lines, none of which is refused.
pub(crate) fn behind(alloc: Global, text: &str) -> Result<ScriptState, ReadFault> {
    let mut state = ScriptState::new(alloc)?;
    take_all(&mut state, text)?;
    Ok(state)
}
