//! Postconditions of each event of a run: what the controllers of a network say, note and take up in it, by what was so
//! before. A label that an event binds was being wired, and nobody used it; whoever uses a label stands for the flow
//! that it was bound to last; and the instances that ports have, tell and store are such as the ports were cleared
//! under.
//!
//! And the flow that an output's label was bound to last is one hop further than that of the input that is joined to it, or may
//! be, by the route of the table that is held.
//!
//! And no message that was made says that a label is taken, or is of another flow.
//!
//! `specs/Before` has the words of `law_port_words` for a past of a run, `specs/Bound` the statements of bindings, `specs/Hops` those
//! of joins, `specs/Disowned` those of messages. `proofs/Start`, `Agreed`, `Heeds` and `Bound` lead a controller through each
//! event; `Ways` to `Events` say where the cells between two ends of a link come from, and `Kept` reads it off behind an event;
//! `Routing` to `Hops` follow the routes of joins; `Saying` reads the payloads that may be made, and `Making` goes over the events
//! for them.
//! There is no code that runs.
#![tactic(auto)]

ghost use Rattle.law_run_facts.specs.Nodes.{RunsHaveNodes};
ghost use Rattle.law_run_facts.specs.Steps.{EventsAreSteps, RunsHaveFronts};
ghost use Rattle.law_frame_readings.specs.law_world_views.Between.{HasAllCleared, HasAllHops, HasAllUsers};
ghost use Rattle.law_frame_readings.specs.law_world_views.Kept.{Begins, Keeps};
ghost use Rattle.law_pairs.specs.Asked.{AnswersSettle};
ghost use Rattle.law_pairs.specs.Past.{RunsMakeNoPairs};
ghost use Rattle.law_told_worlds.specs.Bound.{BindsAreWired, BoundLabelsAreUnused};
ghost use Rattle.law_told_worlds.specs.Disowned.{EventsDisownNothing, OpeningsDisownNothing};
ghost use Rattle.law_told_worlds.specs.Hops.{RunsLeadOn};

use law_frame_readings::frames_are_read;
use law_label_line::label_is_owned;
use law_run_facts::nodes_are_steady;
use law_running_worlds::{frames_are_made, worlds_are_running};
use law_unused_labels::labels_are_unused;

/// Each label that an event binds was being wired for its flow, and nobody used it. It calls the laws of what is read in frames,
/// of chains that pass, and of a label's machine, and its contract is the statement.
pub fn labels_are_bound_unused()
    ensures wired { RunsHaveNodes → RunsHaveFronts → EventsAreSteps → BindsAreWired }
    ensures unused { RunsHaveNodes → RunsHaveFronts → EventsAreSteps → BoundLabelsAreUnused }
{
    frames_are_read();
    worlds_are_running();
    labels_are_unused();
}

/// Each event keeps who may use a label and the instances under which ports were cleared, and at the opening they are so.
/// It calls the laws of what is so of every run, of frames, of chains that pass, and of a label's machine, and its contract
/// is the statement.
pub fn users_are_kept()
    ensures cleared { Keeps HasAllCleared }
    ensures cleared_begin { Begins HasAllCleared }
    ensures users { Keeps HasAllUsers }
    ensures users_begin { Begins HasAllUsers }
{
    nodes_are_steady();
    frames_are_made();
    frames_are_read();
    worlds_are_running();
    label_is_owned();
}

/// Each event leaves joins one hop apart, where no event makes a pair of labels but by the joins that a tick enters, answers
/// settle what is joined, and nobody uses a label that the event binds; and at the opening there are none. It calls the laws of
/// what is so of every run, of frames, of chains that pass and of labels that are bound, and its contract is the statement.
pub fn joins_lead_on()
    ensures events { RunsMakeNoPairs → AnswersSettle → RunsLeadOn }
    ensures opening { Begins HasAllHops }
{
    nodes_are_steady();
    frames_are_read();
    worlds_are_running();
    labels_are_bound_unused();
}

/// Each event that comes makes no message that disowns a label, and there is none at the opening. It calls the laws of each run,
/// of what is read and of worlds that run, and its contract is the statement.
pub fn labels_are_never_disowned()
    ensures events { EventsDisownNothing }
    ensures opening { OpeningsDisownNothing }
{
    nodes_are_steady();
    frames_are_read();
    worlds_are_running();
}
