//! What is true of every run is true of what each command replays, and what is true of every audit is true
//! of what one is given; and what replays write has true lines. No code of this module does anything.

ghost use Rattle.true_commands.specs.Law.{TasksAreTrue};
ghost use Rattle.true_commands.specs.Told.{OutputsAreTrue};

use console_run::sessions_are_runs;
use law_console::every_run_is_right;
use law_live_runs::runs_are_live;
use law_script_runs::scripts_are_runs;
use law_trace::yes_is_of_clean_traces;
use law_true_lines::lines_are_true;
use law_true_runs::runs_are_true;

/// What is true of every run is true of that of a script, of a document and of a drill; and where the
/// audit of an input says yes, the trace that it is is clean. What is true of every run of a console is true
/// of that of a session.
pub(crate) fn tasks_are_true()
    ensures { TasksAreTrue }
{
    runs_are_true();
    runs_are_live();
    scripts_are_runs();
    yes_is_of_clean_traces();
    every_run_is_right();
    sessions_are_runs();
}

/// Each line of a front of what a replay writes is true, since its run is true to routing.
pub(crate) fn outputs_are_true()
    ensures { OutputsAreTrue }
{
    tasks_are_true();
    lines_are_true();
}
