//! How a label comes back between the two ends of a link (RFC 1953), while both agree on all others: a tick recalls a label that
//! isn't used, and says RECLAIM; the other end that hears it ends its grant, at once or when the input is released that it is lent
//! to, and says RECLAIM ACK; this is kept until an ACK tells that the RECLAIM was passed, by which the label is quit; and once
//! its branch is deleted, both agree at rest without it.
//!
//! `specs/Law` has the statements, of the two ports alone: of each rule by itself, and of the whole way. There is no code that
//! runs.
#![tactic(auto)]

ghost use Rattle.law_live_recalls.specs.Law.{UnusedAreRecalled, RecalledAreAnswered, RecalledAreOwed, OwedAreAnswered, OwedAreToldAgain, LeavingStayOwed, OwedAreGreeted, AnsweredAreKept, AnsweredAreQuit, AcknowledgedAreNudged, NudgedAreAcknowledged, AcknowledgedAreQuit, QuitAreFreed, LabelsReturn};

/// A label comes back between two ends of a link, and they agree at rest without it. It does nothing, and its contract is the
/// statements.
pub fn labels_return()
    ensures recalled { UnusedAreRecalled }
    ensures answered { RecalledAreAnswered }
    ensures owed { RecalledAreOwed }
    ensures released { OwedAreAnswered }
    ensures again { OwedAreToldAgain }
    ensures leaving { LeavingStayOwed }
    ensures greeted { OwedAreGreeted }
    ensures kept { AnsweredAreKept }
    ensures passed { AnsweredAreQuit }
    ensures nudged { AcknowledgedAreNudged }
    ensures ranged { NudgedAreAcknowledged }
    ensures quit { AcknowledgedAreQuit }
    ensures freed { QuitAreFreed }
    ensures returned { LabelsReturn }
{}
