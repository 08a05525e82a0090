//! Two ends of a link that agree at rest are at rest again behind a beat, and agree (RFC 1953): where both nodes are at peace as it
//! begins, and each of its carries is elsewhere, or makes one end hear the first message that is on its way to it, or leaves
//! both ports as their peers see them, until nothing is on its way.
//!
//! `specs/Law` has the statements. The ticks are taken as `law_live_worlds` has them, and the carries one by one
//! (`proofs/Going`). There is no code that runs.
#![tactic(auto)]

ghost use Rattle.law_live_rests.specs.Law.{StretchesComeToRest, BeatsComeToRest};

/// Two ends that agree at rest do so behind a beat whose carries go so. It does nothing, and its contract is the statements.
pub fn links_rest_behind_beats()
    ensures stretches { StretchesComeToRest }
    ensures beats { BeatsComeToRest }
{}
