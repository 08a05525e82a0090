//! An invariant of a switch's branches: they keep the shapes in which its controller asks for them, from a channel of a
//! linked port to its home on the control link, or back, or from one label to another. So it is of each input of a
//! switch, where the requests that come to it have their shapes.
//!
//! `specs/Shapes` has the definitions and the statements of a switch, `specs/Events` those of a network. There is no
//! code that runs.
#![tactic(auto)]

ghost use Rattle.law_branch_shapes.specs.Events.{EventsKeepShapes, RunsKeepShapes};
ghost use Rattle.law_branch_shapes.specs.Shapes.{CellsKeepShapes, RestartsKeepShapes, TicksKeepShapes};

/// A cell, a tick and a restart leave branches of these shapes, and so does each event of a run, where the requests on
/// their way have theirs; so every run has them from its opening on. It does nothing, and its contract is the statement.
pub fn switches_keep_shapes()
    ensures cells { CellsKeepShapes }
    ensures ticks { TicksKeepShapes }
    ensures restarts { RestartsKeepShapes }
    ensures events { EventsKeepShapes }
    ensures runs { RunsKeepShapes }
{}
