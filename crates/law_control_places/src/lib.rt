//! An invariant of control frames: one between a controller and its switch is GSMP's, on GSMP's channel, or it goes by
//! a port of a link. So it is at the opening of a network, and each event keeps it, before the first frame that was
//! forged or passed its test by chance.
//!
//! The proof is one walk over all that a controller and a switch do (`law_run_facts`' `proofs/Walks`, and `proofs/Coming` to
//! `proofs/Switches`): a controller says messages of GSMP and, by its ports, of IFMP, and sends no message on that it was told; a
//! switch says messages of GSMP, and its branches to the controller are of channels of linked ports.
//!
//! So nothing that comes is refused: a frame that passes its test is the frame of its last cell, and whoever takes it reads what
//! its maker wrote. A record `Bad` is noted where a frame can't be read: a message of GSMP at a controller or at its switch, a
//! packet under the flow of a label, and what stands on a default channel, which is unwrapped, tested as a packet and, if it is a
//! message of IFMP, read. `proofs/Readings` has that what comes on each of these channels can be read; `proofs/Ports`,
//! `RefusedWalks`, `Frames` and `RefusedSwitches` go over all that a controller and a switch do, and `proofs/RefusedEvents` over
//! the events.
//!
//! A chain that passes its test has the payload of its last cell's frame, at each channel that takes cells (`proofs/Chains`):
//! where it has another, the event notes a record `Chance`. There is no code that runs.
#![tactic(auto)]

ghost use Rattle.law_control_places.specs.Chains.{ChainsAreTheirFrames};
ghost use Rattle.law_control_places.specs.Law.{PlacesAreKept, PlacesBegin};
ghost use Rattle.law_control_places.specs.Refused.{NothingIsRefused};

use law_frame_readings::frames_are_read;
use law_run_facts::nodes_are_steady;
use law_running_worlds::{frames_are_made, worlds_are_running};

/// Each event that comes keeps control frames where they are to be, and so they are at the opening. It calls the laws of what is
/// read, of what is made, of each run and of worlds that run, and its contract is the statement.
pub fn control_frames_have_places()
    ensures events { PlacesAreKept }
    ensures opening { PlacesBegin }
{
    frames_are_read();
    nodes_are_steady();
    worlds_are_running();
    frames_are_made();
}

/// No event that comes notes a record `Bad`. It calls the laws of what is read, of each run and of worlds that run, and its
/// contract is the statement.
pub fn nothing_is_refused()
    ensures events { NothingIsRefused }
{
    frames_are_read();
    nodes_are_steady();
    worlds_are_running();
}

/// A chain that passes its test has the payload of its last cell's frame, in each event of a run behind which no frame was forged
/// and none has passed by chance. It calls the laws of each run and of worlds that run, and its contract is the statement.
pub fn chains_are_their_frames()
    ensures events { ChainsAreTheirFrames }
{
    nodes_are_steady();
    worlds_are_running();
}
