//! What a controller hears to which one of its ports has nothing to say makes it say no message on that port's default channel
//! (RFC 1953, RFC 1987): whatever comes for others, a packet that is only counted, and what an end of a link hears in peace. So a
//! carry that brings it such a thing, or is to another, says none.
//!
//! `specs/Law` has the statements of any controller, `specs/Carries` that of a network. What is sent on that channel are the
//! messages of the port, and packets that are sent on, which are none of IFMP (`proofs/Since`, `proofs/Packets`); so each rule is
//! followed, whatever its port asks (`proofs/Walks`), and those by which answers of the switch ask a port itself
//! (`proofs/Answers`). There is no code that runs.
#![tactic(auto)]

ghost use Rattle.law_live_unsaid.specs.Law.{UnansweredFramesSayNone, ForwardedPacketsSayNone, FramesForOthersAreUnanswered, CarriedPacketsAreHeld, MessagesInPeaceAreUnanswered, QuietMessagesSendNothing, SoundControllersSendByLabels};
ghost use Rattle.law_live_unsaid.specs.Carries.{UnansweredCarriesSayNone};

/// What a port doesn't answer makes its controller say no message on the port's default channel. It does nothing, and its
/// contract is the statements.
pub fn unanswered_frames_say_none()
    ensures frames { UnansweredFramesSayNone }
    ensures forwarded { ForwardedPacketsSayNone }
    ensures others { FramesForOthersAreUnanswered }
    ensures packets { CarriedPacketsAreHeld }
    ensures peace { MessagesInPeaceAreUnanswered }
    ensures quiet { QuietMessagesSendNothing }
    ensures labels { SoundControllersSendByLabels }
{}

/// Nor does a carry of such a thing, in a network. It does nothing, and its contract is the statement.
pub fn unanswered_carries_say_none()
    ensures carries { UnansweredCarriesSayNone }
{}
