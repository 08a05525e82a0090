//! The simulation relation of a node and the machine of one input of its switch: what a controller, its switch and the
//! control link between them show of that machine.
//!
//! `specs/Words` says what a request, an answer and a greeting of GSMP are to the input's machine, and what
//! a cell of the control link is; `specs/Shown` has the relation; `specs/Reaching` says that moves of
//! the machine lead from one site to the next, and `specs/Quiet` what is nothing to the machine. There is no
//! code that runs.
#![tactic(auto)]

ghost use Rattle.std.specs.Prelude.{◌≡◌, ◌+◌, List, replicate, ℕ};
ghost use Rattle.law_shown_cells.specs.world_model.Words.{End, NodeId, Frame, Site};
ghost use Rattle.law_branch_line.specs.Line.{Line};
ghost use Rattle.law_branch_line.specs.Moves.{DrawElsewhere, run};
ghost use Rattle.law_input_views.specs.Shown.{InputShows};
ghost use Rattle.law_input_views.specs.Reaching.{Follows, ReachedAs, Anything};
ghost use Rattle.law_input_views.specs.Quiet.{IsQuietAt};

/// Where moves lead from each state that a site shows to one that the next shows, a state is reached and
/// shows there too; what a site does elsewhere leaves the machine, but for instances that are drawn. It does
/// nothing, and its contract is the statement.
pub fn inputs_lead_lines()
    ensures reached { (node : NodeId) (input : End) (v w : Site) (old new : List Frame) (m n : ℕ)
        → ReachedAs node input v old m Anything
        → ((line : Line) → InputShows node input v old m line → Follows node input w new n Anything line)
        → ReachedAs node input w new n Anything }
    ensures quiet { (node : NodeId) (input : End) (before after : Site) (old new : List Frame) (m n : ℕ) (line : Line)
        → IsQuietAt node input before after old new m n → InputShows node input before old m line → InputShows node input after new n line }
    ensures draws { (line : Line) (k : ℕ) → run line (replicate k DrawElsewhere) ≡ record line { fresh = line.fresh + k } }
{}
