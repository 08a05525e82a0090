//! Non-interference of marks and notes in a network: they are for the ledger, and read by nothing that acts.
//!
//! `unmarked_controllers/specs/Unmarked` takes the marks of all cells, the notes, and what is counted for them from a world, and
//! leaves all else; `specs/Law` has the statements: two worlds that are the same without them are so after each event. Of
//! controllers `law_unmarked_controllers` has it; `proofs/Branches` and `proofs/Switches` go over the rules of a switch,
//! `proofs/Worlds` over the events. There is no code that runs.
#![tactic(auto)]

ghost use Rattle.law_unread_marks.specs.Law.{EventsReadNoMark, EventsTellNoMark, RunsReadNoMark, MarksMayBeTaken};

/// Worlds that differ in marks and notes alone: such worlds each event makes of them, and any events in a row; and an event
/// does without the marks and notes before it. It does nothing, and its contract is the statement.
pub fn marks_are_unread()
    ensures events { EventsReadNoMark }
    ensures told { EventsTellNoMark }
    ensures runs { RunsReadNoMark }
    ensures taken { MarksMayBeTaken }
{}
