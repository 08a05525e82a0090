//! A frame of whose channel nothing was lost is whole when its last cell comes (I.363.5 9.2): its chain passes its test, and
//! has the payload that was made under its mark. That is the other half of why a frame breaks: one that is broken stands
//! beside a loss.
//!
//! `specs/Law` has the statement, of a controller's channels and of a switch's. A chain that fails makes an entry Broken
//! (`proofs/Breaking`), which would stand beside an earlier entry (`proofs/Coming`). There is no code that runs.
#![tactic(auto)]

ghost use Rattle.law_live_frames.specs.Law.{FramesAreWhole};

/// A frame of whose channel nothing was lost is whole when its last cell comes, where each frame that breaks stands beside
/// its cause, and each that passes counts as its own. It does nothing, and its contract is the statement.
pub fn frames_are_whole()
    ensures whole { FramesAreWhole }
{}
