//! What a switch says to a controller that asks for joins alone resets no node (RFC 1987), where what it says is calm: its ACK,
//! or an answer of success. So on a control link that stays calm what the switch says passes a settled port by, and of what a
//! carry brings a node the frames on default channels alone are left to be looked at.
//!
//! `specs/Law` has the statements. A success answers nothing, or a request that stands (`proofs/Answering`); what comes on the
//! GSMP channel of a calm link is read in a calm message (`proofs/Passing`). There is no code that runs.
#![tactic(auto)]

ghost use Rattle.law_live_answers.specs.Law.{CalmMessagesAreHarmless, CalmFramesAreHarmless, CalmNodesLetPass};

/// What a switch says calmly is harmless to a controller that asks for joins alone. It does nothing, and its contract is the
/// statements.
pub fn answers_are_harmless()
    ensures messages { CalmMessagesAreHarmless }
    ensures frames { CalmFramesAreHarmless }
    ensures nodes { CalmNodesLetPass }
{}
