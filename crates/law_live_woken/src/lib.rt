//! A node of a run wakes behind four beats in peace (RFC 1987): before the first frame that was forged or passes its test by chance
//! nothing is asked of the events of these beats but peace, as `law_live_waking` has it.
//!
//! `specs/Law` has the statement. What is asked of a node and of an event besides holds in every run (`proofs/Woken`). There is no
//! code that runs.
#![tactic(auto)]

ghost use Rattle.law_live_woken.specs.Law.{RunsWake};

pub use law_true_runs::runs_are_whole;

/// In a run a node's controller and its switch have met behind four beats in peace. It calls the law that it stands on, and its
/// contract is the statement.
pub fn runs_wake()
    ensures wake { RunsWake }
{
    runs_are_whole();
}
