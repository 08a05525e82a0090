//! Traces of runs before a monitor: the trace of every run is good. The audit finds no fault in it, before the first
//! frame that was forged or passed its test by chance. `specs/Told` has the trace of a run line by line, `specs/Law`
//! the statement. `proofs/Knows`, `Puts` and `Binds` go over the lines, `Crossing` to `Event` over the events, `Hop` to
//! `Firsts` over the cells that switches lead across, `Run` along a run. No code that runs.
#![tactic(auto)]

mod law;

pub use law::traces_are_good;
