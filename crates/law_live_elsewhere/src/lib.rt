//! What is carried elsewhere in a network leaves what the two ends of a link agree on: to a switch, to another controller, or to
//! theirs where it ends no frame. Neither port changes by that.
//!
//! `specs/Law` has the statement. A carry puts nodes with the same ports in the place of others (`proofs/Kept`); a cell that
//! ends no frame waits in a chain (`proofs/Elsewhere`). There is no code that runs.
#![tactic(auto)]

ghost use Rattle.law_live_elsewhere.specs.Law.{CarriesElsewhereKeepAgreement};

/// What is carried elsewhere leaves what the two ends of a link agree on. It does nothing, and its contract is the statement.
pub fn others_keep_agreement()
    ensures keep { CarriesElsewhereKeepAgreement }
{}
