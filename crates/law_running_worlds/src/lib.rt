//! Invariants of a run before the first forged frame and the first chance, which the law of the machines of inputs asks
//! of a network and of an event; and each event keeps those machines.
//!
//! Each event is an ordinary one that comes to a network that runs (`specs/Running`, `proofs/Worlds`): a chain that an event
//! ends and that passes its test is the frame of its last cell, at controllers and at switches.
//!
//! What a controller newly asks of its switch has the shape of a request, and it deletes all branches of a port only once its
//! switch has told it that all ports are up. `specs/New` has the cells that an event puts on the GSMP channel, `specs/Mode` what
//! a controller knows of the ports, `specs/Fine` what is so of it while it acts, and `specs/Calls` what is so of its switch.
//! `proofs/Cells` to `proofs/Laws` go over the functions of a controller, `proofs/Answers` to `proofs/Switches` over all that
//! comes to a controller and to a switch.
//!
//! Each frame that is made is a packet that may be there, in the default encapsulation or as a label carries it, or a message
//! whose numbers fit; and all numbers that a controller or a switch keeps and may say have their fields' widths. The proof is
//! one walk over all that they do (`proofs/Making` to `proofs/Switch`), and then over the events (`proofs/MadeEvents`).
//!
//! Branches and requests have their shapes, all ports of switches are up and told so, and the machine of each input goes on by
//! moves. `specs/Left` has what an event leaves of what is said between a controller and its switch; the lemma files go over
//! the events of a network (`proofs/Acts`, `proofs/InputEvents`), read it off behind an event (`proofs/InputKept`,
//! `proofs/InputWorlds`) and have it at the opening (`proofs/InputOpening`). There is no code that runs.
#![tactic(auto)]

ghost use Rattle.law_run_facts.specs.Nodes.{RunsHaveNodes, RunsHaveRoom};
ghost use Rattle.law_run_facts.specs.Steps.{EventsAreSteps, RunsHaveFronts};
ghost use Rattle.law_running_worlds.specs.Running.{EventsAreOrdinary, TameEventsAreTrue};
ghost use Rattle.law_running_worlds.specs.Fine.{RequestsKeepFine, ResetsKeepFine};
ghost use Rattle.law_running_worlds.specs.Calls.{TicksAskShaped, TicksTellUp, RestartsTellUp};
ghost use Rattle.law_frame_readings.specs.law_world_views.Between.{HasAllMade, HasAllReady, HasAllInputs, HasAllPortsUp, HasAllShapes};
ghost use Rattle.law_frame_readings.specs.law_world_views.Kept.{Keeps, Begins};

use law_frame_readings::frames_are_read;
use law_run_facts::nodes_are_steady;

/// A chain passes as the frame of its last cell in each event whose records have no chance; and each event that comes is an
/// ordinary one that comes to a network that runs. It calls the law of what is read in frames, and its contract is the
/// statement.
pub fn worlds_are_running()
    ensures chains { TameEventsAreTrue }
    ensures events { RunsHaveNodes → RunsHaveRoom → RunsHaveFronts → EventsAreSteps → EventsAreOrdinary }
{
    frames_are_read();
}

/// A request that has a shape may be asked, and a node may be reset, amid an event. It does nothing, and its contract is the
/// statement.
pub fn requests_have_shapes()
    ensures asked { RequestsKeepFine }
    ensures resets { ResetsKeepFine }
{}

/// A tick of a controller asks what has a shape, and a tick and a restart of a switch leave its ports up, and told so. It does
/// nothing, and its contract is the statement.
pub fn calls_are_fine()
    ensures asks { TicksAskShaped }
    ensures tells { TicksTellUp }
    ensures tells_anew { RestartsTellUp }
{}

/// Each event of a run without chances keeps what frames are, and the widths of all numbers; and so they
/// are at the opening: by what is so of each node of a run. It does nothing, and its contract is the
/// statement.
pub fn frames_are_made()
    ensures events { RunsHaveNodes → RunsHaveRoom → RunsHaveFronts → EventsAreSteps → Keeps HasAllMade }
    ensures opening { Begins HasAllMade }
    ensures ready { RunsHaveNodes → RunsHaveRoom → RunsHaveFronts → EventsAreSteps → Keeps HasAllReady }
    ensures ready_opening { RunsHaveNodes → RunsHaveRoom → Begins HasAllReady }
{}

/// Each event keeps the shapes, the ports that are up and the machines of inputs, and at the opening they are so. It calls the laws
/// of what is read in frames, of what each run has and of events that are ordinary, and its contract is the statement.
pub fn inputs_are_kept()
    ensures shapes { Keeps HasAllMade → Keeps HasAllShapes }
    ensures shapes_begin { Begins HasAllShapes }
    ensures ports_up { Keeps HasAllMade → Keeps HasAllPortsUp }
    ensures ports_up_begin { Begins HasAllPortsUp }
    ensures inputs { Keeps HasAllMade → Keeps HasAllInputs }
    ensures inputs_begin { Begins HasAllInputs }
{
    frames_are_read();
    nodes_are_steady();
    worlds_are_running();
}
