//! Why a task isn't carried out to its end.

ghost use Rattle.std.specs.Prelude.{◌≡◌};
ghost use Rattle.commands.specs.Fault.{fault_of_input, fault_of_line, fault_of_stop, no_memory};

use lab_io::{InputFault, Stop};
use line_by_line::LineFault;
use net_types::OutOfMemory;

/// An error that ends a task early: a fault of reading, of writing or of memory.
#[derive(Clone, Copy, Debug, PartialEq, Eq)]
pub enum RunFault {
    /// A read failed.
    Read,
    /// A write failed.
    Write,
    /// No memory was there for the input or for its report.
    OutOfMemory(OutOfMemory),
}

impl From<InputFault> for RunFault {
    ghost from_gives = { λ e f. f ≡ fault_of_input e };

    fn from(fault: InputFault) -> RunFault {
        match fault {
            InputFault::Failed => RunFault::Read,
            InputFault::OutOfMemory(error) => RunFault::OutOfMemory(error),
        }
    }
}

impl From<OutOfMemory> for RunFault {
    ghost from_gives = { λ e f. f ≡ no_memory e };

    fn from(error: OutOfMemory) -> RunFault {
        RunFault::OutOfMemory(error)
    }
}

impl From<Stop> for RunFault {
    ghost from_gives = { λ e f. f ≡ fault_of_stop e };

    fn from(stop: Stop) -> RunFault {
        match stop {
            Stop::Failed => RunFault::Write,
            Stop::OutOfMemory(error) => RunFault::OutOfMemory(error),
        }
    }
}

impl From<LineFault> for RunFault {
    ghost from_gives = { λ e f. f ≡ fault_of_line e };

    fn from(fault: LineFault) -> RunFault {
        match fault {
            LineFault::Read => RunFault::Read,
            LineFault::Write => RunFault::Write,
            LineFault::OutOfMemory(error) => RunFault::OutOfMemory(error),
        }
    }
}
