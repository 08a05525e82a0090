//! The laws of the traces of scripts.

ghost use Rattle.law_trace_reading.specs.Law.{ScriptTracesAreGood, TracesAreAudited};

use law_passing::queues_change_by_passing;
use law_run_facts::nodes_are_steady;
use law_script_runs::scripts_are_runs;
use law_trace_truth::traces_are_good;
use law_true_lines::lines_are_true;
use law_true_runs::runs_are_whole;
use tell_trace::passages_are_read;

/// Each line of the trace of a script is good by those before it, whatever the policy, as far as no frame
/// was forged and none passed its test by chance. It calls the laws that it stands on, and its contract is
/// the statement.
pub fn scripts_have_good_traces()
    ensures { ScriptTracesAreGood }
{
    traces_are_good();
    scripts_are_runs();
    lines_are_true();
}

/// So an audit of that trace says yes, where no line of the script was refused and the trace has at most
/// 16,777,216 octets. It calls the laws that it stands on, and its contract is the statement.
pub fn traces_are_audited()
    ensures { TracesAreAudited }
{
    nodes_are_steady();
    runs_are_whole();
    queues_change_by_passing();
    scripts_are_runs();
    lines_are_true();
    passages_are_read();
    scripts_have_good_traces();
}
