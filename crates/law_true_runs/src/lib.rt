//! The main theorem of runs: what is true of every run of a network, under any policy. Whoever brings a policy of their
//! own has it by the one public call. The statement is `IsTrueRun` of `truth_model`; the laws that it stands on are those of the crates
//! below, and `proofs` goes along a run with all that they keep, and reads the statement off it. There is no code that
//! runs.
#![tactic(auto)]

mod law;

pub use law::{runs_are_true, runs_are_whole};
