//! Tests of `lab_text`.

use lab_text::*;
use std::alloc::Global;
use std::test::Fail;

/// How many octets of the input stand before a line, the line, and what reading it gives, as it is shown. A
/// line that is refused fails the test of its refusal and none before it.
const LINES: [(u32, &str, &str); 19] = [
    (0, "1f0A", "Ok(Some([31, 10]))"),
    (0, "1F0a\n", "Ok(Some([31, 10]))"),
    (0, "\t1f0a \r\n", "Ok(Some([31, 10]))"),
    (0, "", "Ok(None)"),
    (0, "\n", "Ok(None)"),
    (0, " \t\r\n", "Ok(None)"),
    (0, "# 1f 0a\n", "Ok(None)"),
    (0, "#", "Ok(None)"),
    (16_777_214, "0\r\n", "Err(ScriptTooLong)"),
    (16_777_216, "\n", "Err(ScriptTooLong)"),
    (16_777_216, "#\x07", "Err(ScriptTooLong)"),
    (16_777_213, "#\x07\n", "Err(BadByte)"),
    (0, "0\r", "Err(BadByte)"),
    (0, "0\n0\n", "Err(BadByte)"),
    (0, "\x7f", "Err(BadByte)"),
    (0, "0g 00\n", "Err(Arity)"),
    (0, "00 # 00\n", "Err(Arity)"),
    (16_777_212, "000\n", "Err(BadHex)"),
    (0, "0g\n", "Err(BadHex)"),
];

/// What reading a line gives, as it is shown.
fn shown(alloc: Global, before: u32, line: &str) -> Result<String, Fail> {
    let read = read_hex_line(alloc, before, line.as_bytes());
    Ok(format!(in alloc; "{read:?}")?)
}

#[test]
fn lines_say_octets_or_nothing_or_are_refused(rt: HostRuntime) -> Result<(), Fail> {
    for &(before, line, want) in &LINES {
        assert_eq!(rt; shown(rt.alloc(), before, line)?.as_str(), want);
    }
    Ok(())
}
