//! The two ends of a link agree in a network (RFC 1953): at rest, where nothing is on its way, each label that one gives is held by
//! the other, and so it is behind the ticks that begin a beat, but for what the ports said in them; and whatever leaves
//! both ports as their peers see them, leaves that.
//!
//! `specs/Law` has the statements: what `law_live_links` says of two ports alone is said here of those that two nodes hold.
//! `law_live_beats` has that a beat's ticks reach all, `law_live_ports` what a tick leaves of each port (`proofs/Ticking`).
//! There is no code that runs.
#![tactic(auto)]

ghost use Rattle.law_live_worlds.specs.Law.{AgreementGoesBothWays, EndsAgreeInRest, TicksOfAllKeepAgreement, LikeWorldsAgree};

/// The two ends of a link agree in a network at rest, and behind the ticks of a beat. It does nothing, and its contract is the
/// statements.
pub fn worlds_stay_agreed()
    ensures both { AgreementGoesBothWays }
    ensures rest { EndsAgreeInRest }
    ensures ticks { TicksOfAllKeepAgreement }
    ensures alike { LikeWorldsAgree }
{}
