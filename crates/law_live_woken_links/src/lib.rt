//! The two ports of a link of a run wake behind four beats in peace (RFC 1953): before the first frame that was forged or passes its
//! test by chance nothing is asked of their ticks but peace, as `law_live_tables` has it.
//!
//! `specs/Law` has the statement. What is asked of a link and of an event besides holds in every run (`proofs/Woken`). There is no
//! code that runs.
#![tactic(auto)]

ghost use Rattle.law_live_woken_links.specs.Law.{RunsWakeLinks};

pub use law_live_rested::{resting_nodes_wake, runs_are_whole};

/// In a run the two ports of a link have met behind four beats in peace. It calls the law that it stands on, and its contract is the
/// statement.
pub fn links_wake_in_runs()
    ensures wake { RunsWakeLinks }
{
    runs_are_whole();
}
