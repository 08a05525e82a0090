//! A label that the upstream end refuses comes back (RFC 1953): the upstream end tells its range; the downstream end narrows
//! its own and recalls the label that lies outside; the upstream end, which has no grant of it, acknowledges; the
//! downstream end keeps that, quits the label once it hears that its RECLAIM was passed, and has it spare once its branch
//! is deleted.
//!
//! `specs/Law` has the statements, each with all that the rule leaves of a port that holds no other label. There is no
//! code that runs.
#![tactic(auto)]

ghost use Rattle.law_live_returns.specs.Law.{RangesAreTold, LabelsAreRecalled, ReclaimsAreAcknowledged, AcksAreKept, LabelsAreQuit, LabelsAreFreed};

/// How a label that is refused comes back, step by step. It does nothing, and its contract is the statements.
pub fn labels_come_back()
    ensures told { RangesAreTold }
    ensures recalled { LabelsAreRecalled }
    ensures acknowledged { ReclaimsAreAcknowledged }
    ensures kept { AcksAreKept }
    ensures quit { LabelsAreQuit }
    ensures freed { LabelsAreFreed }
{}
