//! Why a line isn't judged.

ghost use Rattle.std.specs.Prelude.{◌≡◌};
ghost use Rattle.trace_audit.specs.declared.fault.AuditFault.TheVariants.{Refused as IsRefused, OutOfMemory as NoMemory};

use net_types::OutOfMemory;
use trace_model::TraceRefusal;

impl From<TraceRefusal> for AuditFault {
    ghost from_gives = { λ refusal fault. fault ≡ IsRefused refusal };

    fn from(refusal: TraceRefusal) -> AuditFault {
        AuditFault::Refused(refusal)
    }
}

impl From<OutOfMemory> for AuditFault {
    ghost from_gives = { λ error fault. fault ≡ NoMemory error };

    fn from(error: OutOfMemory) -> AuditFault {
        AuditFault::OutOfMemory(error)
    }
}

/// An error of the auditor: why a line isn't judged.
#[derive(Clone, Copy, Debug, PartialEq, Eq)]
pub enum AuditFault {
    /// The line is refused.
    Refused(TraceRefusal),
    /// No memory was left for what it says.
    OutOfMemory(OutOfMemory),
}
