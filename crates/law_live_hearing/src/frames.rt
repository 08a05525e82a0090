//! Frames that are heard.

ghost use Rattle.law_live_hearing.specs.Law.{FramesWait, SwitchesHear, ControllersHear, NeighboursHear};

/// What is said is heard, where the ledger has no entry of it. It does nothing, and its contract is the statements.
pub fn frames_are_heard()
    ensures waiting { FramesWait }
    ensures switches { SwitchesHear }
    ensures controllers { ControllersHear }
    ensures neighbours { NeighboursHear }
{}
