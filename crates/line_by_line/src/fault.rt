//! Why a task ends before its input does.

use lab_io::Stop;
use net_types::OutOfMemory;

/// An error that ends a task early: a fault of reading, of writing or of memory. The first fault is
/// the last.
#[derive(Clone, Copy, Debug, PartialEq, Eq)]
pub enum LineFault {
    /// A read failed.
    Read,
    /// A write failed.
    Write,
    /// No memory was left.
    OutOfMemory(OutOfMemory),
}

impl From<Stop> for LineFault {
    ghost use Rattle.std.specs.Prelude.{◌≡◌};
    ghost use Rattle.line_by_line.specs.Faults.{fault_of};

    ghost from_gives = { λ stop fault. fault ≡ fault_of stop };

    fn from(stop: Stop) -> LineFault {
        match stop {
            Stop::Failed => LineFault::Write,
            Stop::OutOfMemory(error) => LineFault::OutOfMemory(error),
        }
    }
}

impl From<OutOfMemory> for LineFault {
    ghost use Rattle.std.specs.Prelude.{◌≡◌};
    ghost use Rattle.line_by_line.specs.declared.fault.LineFault.TheVariants.{OutOfMemory as NoMemory};

    ghost from_gives = { λ error fault. fault ≡ NoMemory error };

    fn from(error: OutOfMemory) -> LineFault {
        LineFault::OutOfMemory(error)
    }
}
