//! What an audit comes to.

ghost use Rattle.std.specs.Prelude.{◌≡◌};
ghost use Rattle.audit_run.specs.Audit.{ending_of};
ghost use Rattle.audit_run.specs.Task.{outcome_of};

use line_by_line::Ending;
use trace_audit::{AuditCounts, Breach, TraceRefusal};

/// The verdict of an audit: what its one line of report says. Lines are numbered from 1.
#[derive(Clone, Copy, Debug)]
pub(crate) enum AuditOutcome {
    /// The trace is good, and has so many links, puts and bindings.
    Yes(AuditCounts),
    /// A line shows that the trace isn't good.
    Breaks {
        /// The line's number.
        number: u64,
        /// What is wrong with it.
        breach: Breach,
    },
    /// A line is refused.
    Refuses {
        /// The line's number.
        number: u64,
        /// Why it is refused.
        refusal: TraceRefusal,
    },
    /// The input ends before `end`.
    Unended {
        /// The number of the line that would be next.
        number: u64,
    },
}

impl AuditOutcome {
    /// How the command ends.
    pub(crate) fn ending(self) -> Ending
        ensures { result ≡ ending_of (outcome_of self) }
    {
        match self {
            AuditOutcome::Yes(_) => Ending::Done,
            AuditOutcome::Breaks { .. } => Ending::Denied,
            AuditOutcome::Refuses { .. } | AuditOutcome::Unended { .. } => Ending::Refused,
        }
    }
}
