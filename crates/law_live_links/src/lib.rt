//! The two ends of a link agree on the labels between them, and go on to do so (RFC 1953): where both have met, each label that
//! one offers is held by the other as a grant of the same flow, with its lifetime but for the ticks since the last
//! REDIRECT, and each end expects the number that the other has next, but for what is on its way. A tick of both keeps
//! that, and so does each message that is heard, first in, first out; so both are at rest again behind a beat.
//!
//! `specs/Law` has the statements, of the two ports alone: that what is said is heard, in order, is another law's. A tick is
//! taken as `law_live_ticks` has it (`proofs/Ticking`), a REDIRECT and an ACK as `law_live_labels` and `law_live_greetings` have
//! them (`proofs/Hearing`). There is no code that runs.
#![tactic(auto)]

ghost use Rattle.law_live_links.specs.Law.{EndsAgreeAtRest, EndsAreAtPeace, TicksKeepAgreement, HearingKeepsAgreement, LinksStayAtRest};

/// The two ends of a link at rest agree, and agree again behind each beat. It does nothing, and its contract is the
/// statements.
pub fn links_stay_agreed()
    ensures rest { EndsAgreeAtRest }
    ensures peace { EndsAreAtPeace }
    ensures ticks { TicksKeepAgreement }
    ensures hearing { HearingKeepsAgreement }
    ensures beats { LinksStayAtRest }
{}
