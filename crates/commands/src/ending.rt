//! How tasks end, and the statuses of a run.

ghost use Rattle.std.specs.Prelude.{◌≡◌};
ghost use Rattle.commands.specs.Ending.{ending_by, ending_status};
ghost use Rattle.commands.specs.Fault.{fault_status};

use crate::fault::RunFault;
use line_by_line::Ending;

/// Everything is read and the report is written; a trace is good.
const DONE: u8 = 0;
/// The words aren't those of a command.
pub(crate) const USAGE: u8 = 1;
/// A line of the input is refused; the last line of the report says which.
const REFUSED: u8 = 2;
/// A read failed.
const READ_FAULT: u8 = 3;
/// A write failed.
pub(crate) const WRITE_FAULT: u8 = 4;
/// No memory was left.
pub(crate) const NO_MEMORY: u8 = 5;
/// A trace isn't good; the report says which line shows it.
const DENIED: u8 = 6;

/// How a task ends in whose input something is refused, or nothing.
pub(crate) fn ending_by(refused: bool) -> Ending
    ensures { result ≡ ending_by refused }
{
    if refused {
        Ending::Refused
    } else {
        Ending::Done
    }
}

/// The status of a task that was carried out.
pub(crate) fn ending_status(ending: Ending) -> u8
    ensures { result ≡ ending_status ending }
{
    match ending {
        Ending::Done => DONE,
        Ending::Refused => REFUSED,
        Ending::Denied => DENIED,
    }
}

/// The status of a task that wasn't.
pub(crate) fn fault_status(fault: RunFault) -> u8
    ensures { result ≡ fault_status fault }
{
    match fault {
        RunFault::Read => READ_FAULT,
        RunFault::Write => WRITE_FAULT,
        RunFault::OutOfMemory(_) => NO_MEMORY,
    }
}
