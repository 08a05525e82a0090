//! A network in peace stays in peace, beat by beat: what a controller asks in a beat is answered within it, and each switch hears its
//! controller in it (RFC 1987), so no beat asks for either.
//!
//! `specs/Hearing` has that a switch hears its controller in each beat (`proofs/Silence`, `proofs/Heard`), and `specs/Law` the other
//! statements. Each request that stands at a desk is on its way through the ticks and carries of a beat (`proofs/Desks`), as
//! `law_live_desks` has it of each event; so none stands where the beat is at rest, and it is one of peace, as
//! `law_live_calm_nodes` has it (`proofs/Lasts`). There is no code that runs.
#![tactic(auto)]

ghost use Rattle.law_live_lasting.specs.Hearing.{SwitchesHearTheirNodes};
ghost use Rattle.law_live_lasting.specs.Law.{DesksAreEmptied, LastingPeaceLasts, LastingBeatsAreOfPeace};

pub use law_live_calm_nodes::runs_are_whole;

/// A network in lasting peace stays so, beat by beat. It calls the law that it stands on, and its contract is the statements.
pub fn lasting_peace_lasts()
    ensures hear { SwitchesHearTheirNodes }
    ensures desks { DesksAreEmptied }
    ensures beats { LastingBeatsAreOfPeace }
    ensures lasts { LastingPeaceLasts }
{
    runs_are_whole();
}
