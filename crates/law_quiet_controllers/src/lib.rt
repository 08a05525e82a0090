//! An invariant of a controller's cross-connects: whatever comes to it, it asks and sends nothing by which its switch
//! leads one label to another, but what stands already and the joins that it enters at a tick.
//!
//! `specs/Quiet` has the judgement, `specs/Heard` what may come, and `specs/Law` the statements. The proof goes rule by
//! rule: what is sent (`proofs/Sending`), what a port at work asks (`proofs/Asking`), releases, changes of routes and joins
//! (`proofs/Joining`), what the switch answers (`proofs/Answers`), and each event (`proofs/Events`). There is no code that
//! runs.
#![tactic(auto)]

ghost use Rattle.law_quiet_controllers.specs.Law.{StaysQuiet};

/// A cell, a packet, a tick, a restart and a change of routes: what a controller asks behind it, it asked before, or it is of
/// a join that the tick entered. It does nothing, and its contract is the statement.
pub fn controllers_stay_quiet()
    ensures { StaysQuiet }
{}
