//! `ipswitch` replays a network from a script and reports what becomes of each packet.
#![tactic(auto)]

ghost use Rattle.std.specs.Prelude.{◌≡◌, map, drop, string_bytes, IfOk};
ghost use Rattle.std.specs.Vec.Iter.{into_iter_items};

use command_line::Word;
use lab_io::{StdSink, StdSource};
use net_types::OutOfMemory;
use std::alloc::Global;
use std::env::{self, Args};
use std::io::ErrorKind;
use std::process::ExitCode;
pub use true_commands::run;
use world::Meter;

/// The words behind the program's name.
fn words_of(alloc: Global, arguments: Args) -> Result<Vec<Word>, OutOfMemory>
    ensures { IfOk result (λ words. words.items ≡ map string_bytes (drop 1 (into_iter_items arguments))) }
{
    Ok(arguments.skip(1).map(Word::new).collect(alloc)?)
}

fn main(rt: HostRuntime) -> ExitCode {
    let arguments = match env::args(&rt) {
        Ok(arguments) => arguments,
        Err(error) if error.kind() == ErrorKind::OutOfMemory => return ExitCode::from(5),
        Err(_) => return ExitCode::from(7),
    };
    let Ok(words) = words_of(rt.alloc(), arguments) else {
        return ExitCode::from(5);
    };
    let mut source = StdSource::new(rt.stdin());
    let mut sink = StdSink::new(rt.stdout());
    let mut meter = Meter::new();
    ExitCode::from(run(
        rt.alloc(),
        words.as_slice(),
        &mut source,
        &mut sink,
        &mut meter,
    ))
}
