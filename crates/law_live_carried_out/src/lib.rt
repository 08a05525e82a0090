//! In a network in lasting peace whose nodes are mirrored, each switch carries out what it is asked throughout a beat (RFC 1987), so no
//! beat asks for it, and the network stays so, beat by beat.
//!
//! `specs/Law` has the statements. Through the ticks that begin a beat nodes have met their switches, and behind them each link goes on
//! (`proofs/Ticks`), as `law_live_calm_nodes` has it of beats of peace; each tick is one at peace, since what stands behind it are joins,
//! which can be written (`proofs/Joins`), so nodes stay mirrored (`proofs/Going`). From there the network goes on from carry to carry, as
//! `law_live_asking` has it (`proofs/Beats`); so the beat is a lasting one, as `law_live_lasting` has it (`proofs/Lasts`). There is no code that runs.
#![tactic(auto)]

ghost use Rattle.law_live_carried_out.specs.Law.{TicksGoOn, BeatsCarryOut, MirroredBeatsAreLasting, MirroredPeaceLasts};

pub use law_live_joining_beats::runs_are_whole;

/// Such a network stays so, beat by beat, and each switch carries out what it is asked throughout. It calls the law that it stands on,
/// and its contract is the statements.
pub fn mirrored_peace_lasts()
    ensures ticks { TicksGoOn }
    ensures carried_out { BeatsCarryOut }
    ensures beats { MirroredBeatsAreLasting }
    ensures lasts { MirroredPeaceLasts }
{
    runs_are_whole();
}
