//! Truth of event logs: each line of a report is true. What the line of a record claims is so of the run that the
//! report is of.
//!
//! `truth_model` says what each line claims, in the words of the headline: a `deliver` or a `drop` that routing hop by
//! hop can have ended this packet so by this event, by the tables that the nodes held, and that it has no other end; a
//! `bind` that nobody may use the label before; a `loss` of a broken frame that it stands beside its cause. It
//! says which octets are true lines, and `specs/Law` that those of each front of a report are, wherever it is cut off: each
//! record has one line, whose one LF is its last octet, since no word of it has one. There is no code that runs.
#![tactic(auto)]

ghost use Rattle.law_true_lines.specs.Law.{DocumentsHaveNames, DrillsHaveNames, FrontsAreTrue, LastLinesAreTrue, ScriptsHaveNames};

/// Where the run of a script is true to routing, each whole line of each front of its report is a true line; so is the last
/// line alone. The nodes of scripts, documents and drills have names without LF. It does nothing, and its contract is the
/// statement.
pub fn lines_are_true()
    ensures fronts { FrontsAreTrue }
    ensures last { LastLinesAreTrue }
    ensures scripts { ScriptsHaveNames }
    ensures documents { DocumentsHaveNames }
    ensures drills { DrillsHaveNames }
{}
