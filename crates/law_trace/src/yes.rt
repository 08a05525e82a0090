//! What it means that an audit says yes.

ghost use Rattle.std.specs.Prelude.{◌≡◌, ℕ, List};
ghost use Rattle.trace_model.specs.Audit.{audit_of, Yes};
ghost use Rattle.trace_model.specs.Meaning.{trace_of, AtEach, IsClean};

/// Where an audit says yes, in the whole trace each `bind` finds no cell of its label in the queue
/// towards it, each cell on a label's channel is of a labelled frame of its label's flow, and each cell
/// that a switch passes from label to label, to another port or channel than its mark's first put, goes
/// to the flow with the Time To Live one less.
pub fn yes_is_of_clean_traces()
    ensures { (octets : List ℕ) (links puts binds : ℕ) → audit_of octets ≡ Yes links puts binds → AtEach IsClean (trace_of octets) }
{}
