//! Joins of a controller in peace (Newman, Minshall and Lyon; the rules are this project's own): a label that can be joined is
//! joined in a tick, and what is joined stays so, whatever the controller hears and does.
//!
//! `specs/Joins` has what is joined; `specs/Ticks` that a tick joins what can be joined, as a label can that is ready at rest
//! (`proofs/Ready`), and keeps all joins: ports tick (`proofs/Aging`), each input has its turn (`proofs/Turns`), a label waits for its
//! own through those of others (`proofs/Waiting`), in which it is joined (`proofs/Joined`, `proofs/Trying`, `proofs/Ticking`).
//! `specs/Frames` has that a frame in peace keeps them: packets (`proofs/Counting`), messages of peers (`proofs/Hearing`), and what
//! the switch says (`proofs/Answers`). There is no code that runs.
#![tactic(auto)]

ghost use Rattle.law_live_joining.specs.Ticks.{ReadyLabelsCanBeJoined, TicksJoin, TicksKeepJoins};
ghost use Rattle.law_live_joining.specs.Frames.{FramesKeepJoins};

/// A label that can be joined is joined in a tick at peace, which keeps all joins. It does nothing, and its contract is the
/// statements.
pub fn ticks_join_labels()
    ensures ready { ReadyLabelsCanBeJoined }
    ensures joined { TicksJoin }
    ensures kept { TicksKeepJoins }
{}

/// A frame in peace keeps all joins. It does nothing, and its contract is the statement.
pub fn frames_keep_joins()
    ensures kept { FramesKeepJoins }
{}
