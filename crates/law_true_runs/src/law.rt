//! The laws of every run, put together. No code of this module does anything.

ghost use Rattle.law_told_worlds.specs.Bound.{BindsAreWired};
ghost use Rattle.law_true_runs.specs.Law.{RunsAreTrue};
ghost use Rattle.law_true_runs.specs.Runs.{BindsUnusedInRuns, HoldsInRuns, IsWhole};

use law_control_places::{chains_are_their_frames, control_frames_have_places, nothing_is_refused};
use law_idle_policies::nothing_is_bound;
use law_joined_worlds::{answers_settle_joins, joins_are_kept, runs_make_no_pairs};
use law_label_worlds::labels_are_followed;
use law_lifetimes::grants_expire;
use law_ownership::labels_are_owned;
use law_packet_worlds::packets_are_kept;
use law_passed_cells::cells_have_passed;
use law_quiet_links::carries_empty_queues;
use law_run_facts::nodes_are_steady;
use law_running_worlds::{frames_are_made, inputs_are_kept};
use law_steady_routes::fates_are_journeys;
use law_told_tables::tables_are_told;
use law_told_worlds::{
    joins_lead_on, labels_are_bound_unused, labels_are_never_disowned, users_are_kept,
};
use law_true_losses::losses_are_true;

/// What every run keeps from event to event, before the first frame that was forged or passed its test by
/// chance: so no label is bound that somebody may use, and each that is bound was being wired for its
/// flow. It calls the laws that it stands on, and its contract is the statement.
pub fn runs_are_whole()
    ensures whole { HoldsInRuns IsWhole }
    ensures wired { BindsAreWired }
    ensures unused { BindsUnusedInRuns }
{
    nodes_are_steady();
    frames_are_made();
    inputs_are_kept();
    runs_make_no_pairs();
    answers_settle_joins();
    labels_are_followed();
    joins_are_kept();
    joins_lead_on();
    labels_are_bound_unused();
    users_are_kept();
    cells_have_passed();
    packets_are_kept();
    control_frames_have_places();
    labels_are_owned();
    labels_are_never_disowned();
    nothing_is_refused();
}

/// What is true of every run of a network: cut-through changes nothing of what routing makes of packets,
/// before the first frame that was forged or passed its test by chance; so long labels are owned, what is
/// said on a link and asked of a switch is in the order of its numbers, a chain that passes its test is
/// its last cell's frame, broken frames have their causes, nothing is refused, and no message disowns a
/// label; grants end by their lifetimes, each node holds the topology's routes, changed as events told
/// it, and the ledger has each cell that was lost on its way. While nothing comes but carries of cells,
/// all queues become empty, and then each accepted packet has its fate or an entry in the ledger. Before
/// the first change of a route fates are journeys, and where nothing is offered nothing is bound. It
/// calls the laws that it stands on, and its contract is the statement.
pub fn runs_are_true()
    ensures { RunsAreTrue }
{
    runs_are_whole();
    nodes_are_steady();
    cells_have_passed();
    packets_are_kept();
    labels_are_owned();
    chains_are_their_frames();
    tables_are_told();
    losses_are_true();
    fates_are_journeys();
    nothing_is_bound();
    grants_expire();
    carries_empty_queues();
}
