//! Events in the simulation of an input's machine: each is moves of the machine of each input of each switch of a
//! network.
//!
//! `specs/Coming` says what is so of a network between events and which events are meant: those that
//! forge no frame and let none pass its test by chance on the GSMP channel. There is no code that runs.
#![tactic(auto)]

ghost use Rattle.law_input_premises.specs.world_model.network_model.declared.event.Event.{Event};
ghost use Rattle.law_input_premises.specs.world_model.Words.{Topology, World, step};
ghost use Rattle.law_input_events.specs.Coming.{HasLines, IsOrdinary, IsRunning};

/// From a network between events that shows a state of the machine of each input, each such event leads each by moves
/// to one that the network then shows. It does nothing, and its contract is the statement.
pub fn events_are_moves()
    ensures { (topology : Topology) (w : World) (event : Event) → IsRunning w → IsOrdinary topology w event → HasLines w → HasLines (step topology w event) }
{}
