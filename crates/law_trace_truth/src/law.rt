//! The law of traces.

ghost use Rattle.law_trace_truth.specs.Law.{TracesAreGood};

use law_passing::queues_change_by_passing;
use law_run_facts::nodes_are_steady;
use law_true_runs::runs_are_whole;

/// The trace of every run, as far as no frame was forged and none passed its test by chance, is good: by
/// the lines before it no line of it is refused, and none shows the trace bad. So each cell that is taken
/// was put, a label is bound only while no cell of it is on its way, each cell on a label is of a frame
/// that fits the flow of that label, and one that a switch leads from label to label goes one hop further.
/// The nodes have names, and no port has two links, as of every network that lines make. It calls the
/// laws that it stands on, and its contract is the statement.
pub fn traces_are_good()
    ensures { TracesAreGood }
{
    nodes_are_steady();
    runs_are_whole();
    queues_change_by_passing();
}
