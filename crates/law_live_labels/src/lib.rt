//! What the two ends of a link make of one label (RFC 1953): the downstream end offers it as its branch is made, and says so
//! in a REDIRECT; the upstream end that takes this REDIRECT holds a new grant and asks for its branch, and sends under the
//! label once that is made; a later REDIRECT gives the grant its lifetime anew.
//!
//! `specs/Law` has the statements, each with all that the rule leaves. There is no code that runs.
#![tactic(auto)]

ghost use Rattle.law_live_labels.specs.Law.{LabelsAreOffered, GrantsAreMade, GrantsAreStarted, GrantsAreRefreshed};

/// What the two ends of a link make of one label. It does nothing, and its contract is the statements.
pub fn labels_are_agreed()
    ensures offered { LabelsAreOffered }
    ensures made { GrantsAreMade }
    ensures started { GrantsAreStarted }
    ensures refreshed { GrantsAreRefreshed }
{}
