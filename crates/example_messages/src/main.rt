//! Reads messages of GSMP and IFMP, a line of hexadecimal each, and writes what each of them says.
#![tactic(auto)]

use lab_io::{StdSink, StdSource, read_to_end, write_all};
use lab_text::{INPUT_LIMIT, Text, read_hex_line, split_line};
use message_text::{write_gsmp, write_ifmp};
use net_types::OutOfMemory;
use std::alloc::Global;
use std::process::ExitCode;

/// Appends a line: the message that these octets are. None are of both protocols, since one of GSMP
/// begins with AA (hexadecimal), and one of IFMP with its version, 1.
fn tell(out: &mut Text, octets: &[u8]) -> Result<(), OutOfMemory> {
    if let Ok(message) = gsmp_wire::decode(octets) {
        out.text("GSMP ")?;
        write_gsmp(out, &message)?;
    } else if let Ok(message) = ifmp_wire::decode(octets) {
        out.text("IFMP ")?;
        write_ifmp(out, &message)?;
    } else {
        out.text("neither")?;
    }
    out.text("\n")
}

/// A line for each line of the input that is one word of hexadecimal; the others are passed over.
fn tell_all(alloc: Global, input: &[u8]) -> Result<Text, OutOfMemory> {
    let mut out = Text::new(alloc);
    let mut rest = input;
    while !rest.is_empty() {
        let (line, others) = split_line(rest);
        if let Ok(Some(octets)) = read_hex_line(alloc, 0, line) {
            tell(&mut out, octets.as_slice())?;
        }
        rest = others;
    }
    Ok(out)
}

fn main(rt: HostRuntime) -> ExitCode {
    let mut source = StdSource::new(rt.stdin());
    let mut sink = StdSink::new(rt.stdout());
    let Ok(input) = read_to_end(rt.alloc(), &mut source, INPUT_LIMIT) else {
        return ExitCode::from(3);
    };
    let Ok(text) = tell_all(rt.alloc(), input.as_slice()) else {
        return ExitCode::from(5);
    };
    match write_all(&mut sink, text.as_slice()) {
        Ok(()) => ExitCode::SUCCESS,
        Err(_) => ExitCode::from(4),
    }
}
