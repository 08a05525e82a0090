//! Why a line isn't read.

ghost use Rattle.std.specs.Prelude.{◌≡◌};
ghost use Rattle.script_text.specs.declared.fault.ReadFault.TheVariants.{Refused as IsRefused, OutOfMemory as NoMemory};

use net_types::OutOfMemory;
use script_model::LineRefusal;

/// A syntax error or a refused line, or want of memory: why a line of a script isn't read. This
/// project's own.
#[derive(Clone, Copy, Debug, PartialEq, Eq)]
pub enum ReadFault {
    /// The line is refused.
    Refused(LineRefusal),
    /// The line isn't refused, but no memory was left for what it says.
    OutOfMemory(OutOfMemory),
}

impl From<LineRefusal> for ReadFault {
    ghost from_gives = { λ refusal fault. fault ≡ IsRefused refusal };

    fn from(refusal: LineRefusal) -> ReadFault {
        ReadFault::Refused(refusal)
    }
}

impl From<OutOfMemory> for ReadFault {
    ghost from_gives = { λ error fault. fault ≡ NoMemory error };

    fn from(error: OutOfMemory) -> ReadFault {
        ReadFault::OutOfMemory(error)
    }
}
