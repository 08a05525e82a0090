//! No labels under a flow classifier that offers nothing: none is ever bound, in every run, frames that are forged or
//! pass their test by chance among it.
//!
//! Under such a policy no port holds a label, since a label is taken where a packet is counted and the policy offers, and
//! nowhere else; and only a label that is held is bound. `proofs/Ports` to `proofs/Cells` say so of a port and of a
//! controller in an event, in the words of `law_port_words` for ports that hold nothing; `proofs/Worlds` of each event, and
//! `proofs/Runs` of each run. There is no code that runs.
#![tactic(auto)]

ghost use Rattle.law_idle_policies.specs.Law.{NothingIsBound};

/// Where the policy offers nothing, no event of a run has a record that a label was bound. It does nothing, and its contract
/// is the statement.
pub fn nothing_is_bound()
    ensures bound { NothingIsBound }
{}
