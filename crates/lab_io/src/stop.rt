//! Why a report isn't put to its end.

use crate::edge::Failed;
use net_types::OutOfMemory;

/// An error in the midst of a report: why it isn't put to its end. Afterwards nothing more is put.
#[derive(Clone, Copy, Debug, PartialEq, Eq)]
pub enum Stop {
    /// A write of the report failed.
    Failed,
    /// No memory was left.
    OutOfMemory(OutOfMemory),
}

impl From<Failed> for Stop {
    ghost use Rattle.std.specs.Prelude.{◌≡◌};
    ghost use Rattle.lab_io.specs.declared.stop.Stop.TheVariants.{Failed as WriteFailed};

    ghost from_gives = { λ error stop. stop ≡ WriteFailed };

    fn from(_failed: Failed) -> Stop {
        Stop::Failed
    }
}

impl From<OutOfMemory> for Stop {
    ghost use Rattle.std.specs.Prelude.{◌≡◌};
    ghost use Rattle.lab_io.specs.declared.stop.Stop.TheVariants.{OutOfMemory as NoMemory};

    ghost from_gives = { λ error stop. stop ≡ NoMemory error };

    fn from(error: OutOfMemory) -> Stop {
        Stop::OutOfMemory(error)
    }
}
