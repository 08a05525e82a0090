//! Invariants of a network's cross-connects: which labels of a switch are joined, or may be, behind each event of a run
//! before the first frame that was forged or passed by chance. They are those that were before it, and at a tick of its
//! controller those of the joins that it enters. So each pair of labels that are joined or may be is a join of the
//! controller, and no two inputs are joined to one output.
//!
//! What is joined once an answer of a switch is taken: nothing else of an input that the answered request led home, and
//! nothing at all where the answer ends the meeting.
//!
//! `law_pairs` has the words of pairs over runs (`specs/Past`, `specs/Asked`). The lemma files have what an event needs of a run
//! (`proofs/Premises`), what answers settle (`proofs/Answered` to `proofs/Settled`), and what is kept of joins
//! (`proofs/Stepped`, `proofs/Joined`) and is so at the opening (`proofs/Opening`). There is no code that runs.
#![tactic(auto)]

ghost use Rattle.law_run_facts.specs.Nodes.{RunsHaveNodes, RunsHaveRoom};
ghost use Rattle.law_run_facts.specs.Steps.{EventsAreSteps, RunsHaveFronts};
ghost use Rattle.law_frame_readings.specs.law_world_views.Between.{HasAllJoins, HasAllLedOnce, HasAllMade};
ghost use Rattle.law_frame_readings.specs.law_world_views.Kept.{Begins, Keeps};
ghost use Rattle.law_pairs.specs.Past.{RunsMakeNoPairs};
ghost use Rattle.law_pairs.specs.Asked.{AnswersSettle};

use law_frame_readings::frames_are_read;
use law_pairs::events_make_no_pairs;
use law_run_facts::nodes_are_steady;
use law_running_worlds::worlds_are_running;

/// No event of such a run makes a pair of labels but a tick, of the joins that it enters. It calls the laws that it stands on,
/// and its contract is the statement.
pub fn runs_make_no_pairs()
    ensures { RunsHaveNodes → RunsHaveRoom → RunsHaveFronts → EventsAreSteps → Keeps HasAllMade → RunsMakeNoPairs }
{
    frames_are_read();
    worlds_are_running();
    events_make_no_pairs();
}

/// Each answer of a switch settles what may be joined to the labels of its node's links. It calls the law of pairs that it
/// stands on, and its contract is the statement.
pub fn answers_settle_joins()
    ensures { Keeps HasAllMade → AnswersSettle }
{
    runs_make_no_pairs();
}

/// Each event keeps that pairs of labels are joins of the controller, once the switch is met, and that no two inputs
/// are joined to one output; and at the opening nothing is joined. It calls the laws that it stands on, and its
/// contract is the statement.
pub fn joins_are_kept()
    ensures joins { RunsMakeNoPairs → Keeps HasAllJoins }
    ensures joins_begin { Begins HasAllJoins }
    ensures once { RunsMakeNoPairs → Keeps HasAllLedOnce }
    ensures once_begins { Begins HasAllLedOnce }
{
    nodes_are_steady();
    worlds_are_running();
}
