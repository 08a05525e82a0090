//! The simulation theorem of a label's machine: that of each label of each link follows every event of a run, before
//! the first frame that was forged or passed its test by chance. Moves lead to a state that the network shows.
//!
//! `specs/Conduct` says what controllers do there where a cell comes to one or one ticks, and what may be
//! joined behind an event; all else is `law_label_events`'. What a controller does with the cells that its switch
//! sends it, and in a tick, is moves of the machine, where joins to the label come and go: `law_pairs` (`specs/Settles`) says what
//! joins are where an answer of the switch releases them, and `specs/Enters` which joins a tick enters. What
//! may be joined to the label behind an event that brings a cell stays the same through all of it; a tick leads
//! from what may be joined before it to what may be joined behind it. There is no code that runs.
#![tactic(auto)]

ghost use Rattle.law_run_facts.specs.Nodes.{RunsHaveNodes, RunsHaveRoom};
ghost use Rattle.law_pairs.specs.Past.{RunsMakeNoPairs};
ghost use Rattle.law_pairs.specs.Asked.{AnswersSettle};
ghost use Rattle.law_label_events.specs.law_world_views.Between.{HasAllLabels};
ghost use Rattle.law_label_events.specs.law_world_views.Kept.{Keeps, Begins};
ghost use Rattle.law_label_worlds.specs.Conduct.{CellsArrive, TicksLead, PairsAreOld};

use law_run_facts::nodes_are_steady;

/// In every run before the first frame that was forged or passed by chance, a cell that comes to a controller can
/// be followed there by the machine of each label of each link, whatever its channel, where answers settle what is
/// joined; and a tick leads the machine, with the joins that it enters. It does nothing, and its contract is the
/// statement.
pub fn controllers_lead_labels()
    ensures cells { RunsHaveNodes → RunsHaveRoom → AnswersSettle → CellsArrive }
    ensures ticks { RunsHaveNodes → RunsHaveRoom → RunsMakeNoPairs → TicksLead }
{}

/// From a network in which moves lead to a state that it shows, of each label of each link, each event leads to
/// another such; and a network that opens is one. It does nothing, and its contract is the statement.
pub fn events_are_moves()
    ensures events { PairsAreOld → CellsArrive → TicksLead → Keeps HasAllLabels }
    ensures opening { Begins HasAllLabels }
{}

/// Each event keeps a state of the machine for each label, where no event makes a pair of labels but by the joins that a tick enters, and
/// answers settle what is joined; and a network that opens has one. It calls the laws that it stands on, and its contract is
/// the statement.
pub fn labels_are_followed()
    ensures events { RunsMakeNoPairs → AnswersSettle → Keeps HasAllLabels }
    ensures opening { Begins HasAllLabels }
{
    nodes_are_steady();
    controllers_lead_labels();
    events_are_moves();
}
