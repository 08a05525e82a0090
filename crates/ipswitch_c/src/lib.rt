//! The C interface of the program: one call, whose words, input and output are octets in memory.
#![tactic(auto)]

ghost use Rattle.true_commands.specs.Call.{IsCall};

use std::alloc::Global;
use true_commands::call;

/// Runs the command whose words stand in `words`, with spaces or tabs between them, over `input`. Its
/// output goes to the front of `room`, and `count` says how many octets it has. The status is 0 done, 1
/// usage, 2 a line is refused, 6 a trace isn't good; or 4 where the output has more octets than the room,
/// and `count` says how many; 5 want of memory, and 7 a word that isn't UTF-8, both with a `count` of 0.
/// With 4, 5 and 7 the room is as it was. Nothing is kept of a call.
#[unsafe(no_mangle)]
pub extern "C" fn ipswitch_call(
    alloc: Global,
    words: &[u8],
    input: &[u8],
    room: &mut [u8],
    count: &mut usize,
) -> u8
    ensures { IsCall words.now input.now room.old room.new count.new result }
{
    call(alloc, words, input, room, count)
}
