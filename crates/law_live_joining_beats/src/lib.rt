//! A label that can be joined is joined in the next calm beat, and stays so (Newman, Minshall and Lyon; RFC 1987).
//!
//! `specs/Law` has the statements. In a network in lasting peace the controller of a node joins the label in its tick, as
//! `law_live_joining` has it; and through the beat no join is taken back: each frame that a carry brings the node is one in peace
//! (`proofs/Hearing`), since what its peers say they say in agreement (`proofs/Links`), and all else is for others; so a cell
//! keeps all joins (`proofs/Cells`), and so does each event (`proofs/Beats`), beat by beat (`proofs/Lasting`). Where the node
//! is mirrored at rest, its switch leads the input so (`proofs/Switches`). There is no code that runs.
#![tactic(auto)]

ghost use Rattle.law_live_joining_beats.specs.Law.{JoinsStay, JoinsLast, LabelsAreJoinedInABeat, SwitchesLead, SwitchesLeadBehindABeat};

pub use law_live_brought::runs_are_whole;

/// A label that can be joined is joined in the next lasting beat, and what is joined stays so. It calls the law that it stands
/// on, and its contract is the statements.
pub fn labels_are_joined_and_stay()
    ensures joined { LabelsAreJoinedInABeat }
    ensures stays { JoinsStay }
    ensures lasts { JoinsLast }
    ensures led { SwitchesLeadBehindABeat }
{
    runs_are_whole();
}

/// At rest a switch leads an input that is joined to where it is joined. It does nothing, and its contract is the statement.
pub fn switches_lead()
    ensures lead { SwitchesLead }
{}
