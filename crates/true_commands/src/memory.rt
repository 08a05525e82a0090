//! The commands over octets in memory.

ghost use Rattle.std.specs.Prelude.{◌≡◌, ◌≢◌, [], IfSome};
ghost use Rattle.true_commands.specs.Call.{IsCall, IsOutput};

use crate::command::run;
use crate::laws::{outputs_are_true, tasks_are_true};
use call_edge::{GrowingSink, WordsFault, hand_out, read_words};
use command_line::Word;
use lab_io::SureSource;
use std::alloc::Global;
use world::Meter;

/// The output has more octets than the room for it.
const NO_ROOM: u8 = 4;
/// No memory was left.
const NO_MEMORY: u8 = 5;
/// A word isn't text.
const NO_TEXT: u8 = 7;

/// The status of [`run`] where a write failed. A sink in memory fails where no memory is left.
const WRITE_FAULT: u8 = 4;

/// The status of a run that wrote its whole output; `None` where no memory was left for it.
fn kept_status(status: u8) -> Option<u8>
    ensures { IfSome result (λ kept. (kept ≡ status) × ((kept ≢ 4) × (kept ≢ 5))) }
{
    match status {
        WRITE_FAULT | NO_MEMORY => None,
        status => Some(status),
    }
}

/// Runs a command over an input, puts what it writes to a sink that has taken nothing, and gives its
/// status: 0 done, 1 usage, 2 a line is refused, 6 a trace isn't good. `None` where no memory was left.
fn run_held(alloc: Global, words: &[Word], input: &[u8], sink: &mut GrowingSink) -> Option<u8>
    requires empty { sink.old.taken ≡ [] }
    requires sound { sink.old.faults ≡ 0 }
    ensures { IfSome result (λ status. IsOutput words.now input.now sink.new.taken status) }
{
    outputs_are_true();
    let Ok(octets) = Vec::from_slice(alloc, input) else {
        return None;
    };
    let mut source = SureSource::new(octets, usize::MAX);
    let mut meter = Meter::new();
    kept_status(run(alloc, words, &mut source, sink, &mut meter))
}

/// Runs the command whose words stand in `words`, with spaces or tabs between them, over `input`. Its
/// output goes to the front of `room`, and `count` says how many octets it has. The status is 0 done, 1
/// usage, 2 a line is refused, 6 a trace isn't good; or 4 where the output has more octets than the room,
/// and `count` says how many; 5 want of memory, and 7 a word that isn't UTF-8, both with a `count` of 0.
/// With 4, 5 and 7 the room is as it was. Nothing is kept of a call.
pub fn call(alloc: Global, words: &[u8], input: &[u8], room: &mut [u8], count: &mut usize) -> u8
    ensures { IsCall words.now input.now room.old room.new count.new result }
{
    tasks_are_true();
    *count = 0;
    let words = match read_words(alloc, words) {
        Ok(words) => words,
        Err(WordsFault::NoText) => return NO_TEXT,
        Err(WordsFault::OutOfMemory(_)) => return NO_MEMORY,
    };
    let mut sink = GrowingSink::new(alloc);
    let Some(status) = run_held(alloc, words.as_slice(), input, &mut sink) else {
        return NO_MEMORY;
    };
    if hand_out(sink.written(), room, count) {
        status
    } else {
        NO_ROOM
    }
}
