//! Joins at a tick (Newman, Minshall and Lyon; the rules are this project's own): a label that may be joined, and whose
//! flow's route leads on to a grant that the controller sends under, is joined at its turn. The grant is lent to its
//! input, and Move Branch of the input from the control link to the grant's label is asked and sent.
//!
//! `specs/Law` has the statement. The port of the label and that of the grant are two, or one (`proofs/Joining`). There
//! is no code that runs.
#![tactic(auto)]

ghost use Rattle.law_live_joins.specs.Law.{LabelsAreJoined};

/// A label that can be joined is joined at its turn in a tick. It does nothing, and its contract is the statement.
pub fn labels_are_joined()
    ensures joined { LabelsAreJoined }
{}
