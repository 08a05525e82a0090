//! What becomes of soft state in every run of a network, whatever its policy: each node wakes, behind four beats in peace (RFC 1987), and
//! each link, behind four more; both ends of each link hold the same labels behind calm beats, and a flow of which enough packets are sent
//! is cut through in them (RFC 1953). The program's own has it by the one public call.
//!
//! The statements are `IsLiveRun` of `live_model` and `IsCalmRun` of `calm_model`; `law_live_rested`, `law_link_parties`, `law_live_ease` and
//! `law_live_cut_through` have the laws that they stand on. There is no code that runs.
#![tactic(auto)]

ghost use Rattle.law_live_runs.specs.Law.{RunsAreLive};

use law_link_parties::{resting_nodes_wake, runs_wake_links};
use law_live_cut_through::{runs_agree, runs_cut_through};

/// Nodes and links wake so in every run, both ends agree, and flows are cut through. It calls the laws that this stands on, and its contract is the statement.
pub fn runs_are_live()
    ensures { RunsAreLive }
{
    resting_nodes_wake();
    runs_wake_links();
    runs_agree();
    runs_cut_through();
}
