//! When a network is left in peace: beats, in which each actor ticks once and cells are carried until none waits, events in peace
//! at a node, two sides of an adjacency that have met, and what becomes of soft state in every run, `IsLiveRun`. Definitions alone,
//! in `specs/`.
#![tactic(auto)]
