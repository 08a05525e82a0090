//! Where numbers are left for what a port may say in an event (RFC 1953; that a port is reset where its numbers are spent is this
//! project's own), nothing but its adjacency's table resets it, while its node is up with its switch.
//!
//! `specs/Law` has the statements. What each rule of a port says is counted in `proofs/Room` and `proofs/Hearing`, and what a controller
//! does with it in `proofs/Spending`, `proofs/Answers`, `proofs/Ticking` and `proofs/Holding`. There is no code that runs.
#![tactic(auto)]

ghost use Rattle.law_link_numbers.specs.Law.{TicksKeepParties, FramesKeepParties, EntriesKeepParties};

/// Where numbers are left, nothing but its table resets a port. It does nothing, and its contract is the statements.
pub fn numbers_keep_parties()
    ensures ticks { TicksKeepParties }
    ensures frames { FramesKeepParties }
    ensures entries { EntriesKeepParties }
{}
