//! Words of commands, and words of none.

use command_line::{Word, read_command};
use net_types::OutOfMemory;
use std::alloc::{AllocError, Global};
use std::process::Abort;

/// The words of each command.
const COMMANDS: &str =
    "replay\nreplay toml\nideal\nrules\ndecode ifmp\ndecode gsmp\ndrill 1\ndrill 9999\n";

/// Words of no command.
const OTHERS: &str =
    "\nhelp\n--help\nreplay -\nreplay --\nideal help\nreplay x\nreplay toml x\nideal x\nrules x\ndecode\ndecode ifmp gsmp\ndrill\ndrill 0\ndrill 01\ndrill 10000\ndrill +1\ndrill 1 2\nReplay\n";

fn words(alloc: Global, line: &str) -> Result<Vec<Word>, AllocError> {
    let mut words = Vec::new(alloc);
    for word in line.split(' ') {
        if !word.is_empty() {
            words.push(Word::new(String::from_str(alloc, word)?))?;
        }
    }
    Ok(words)
}

fn has_command(alloc: Global, line: &str) -> Result<bool, OutOfMemory> {
    let words = words(alloc, line)?;
    Ok(read_command(alloc, words.as_slice())?.is_some())
}

/// Each of these lines has a command, or none has.
fn assert_read(
    rt: &impl Abort,
    alloc: Global,
    lines: &str,
    is_command: bool,
) -> Result<(), OutOfMemory> {
    for line in lines.lines() {
        assert!(rt; has_command(alloc, line)? == is_command, "{line}");
    }
    Ok(())
}

#[test]
fn each_command_has_its_words(rt: HostRuntime) -> Result<(), OutOfMemory> {
    assert_read(&rt, rt.alloc(), COMMANDS, true)
}

/// Words of no command are told from want of memory.
#[test]
fn other_words_have_none(rt: HostRuntime) -> Result<(), OutOfMemory> {
    assert_read(&rt, rt.alloc(), OTHERS, false)
}
