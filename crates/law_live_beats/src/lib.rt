//! Beats of a network: one begins with a tick of each controller and then of each switch, each of which does what a
//! tick of it does, and no other tick comes in it.
//!
//! `specs/Law` has the statement. An actor's tick changes its own node alone, so that each node is ticked as it was left
//! (`proofs/Ticks`). There is no code that runs.
#![tactic(auto)]

ghost use Rattle.law_live_beats.specs.Law.{TicksReachAll, TicksComeFirst};

/// In a beat each controller and each switch of a network ticks, and does so once. It does nothing, and its contract is
/// the statement.
pub fn ticks_reach_all()
    ensures reach { TicksReachAll }
    ensures first { TicksComeFirst }
{}
