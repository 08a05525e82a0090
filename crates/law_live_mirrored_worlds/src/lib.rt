//! In a network the requests on their way of `law_live_mirrors` are those that are read in the frames which wait in the queue from a
//! controller to its switch (RFC 1987). So each request that a carry brings the switch is the first of them, and is carried out:
//! this is what `law_live_control_links` asks of a carry. Behind it, behind whatever else a network does, and behind what the
//! controller asks, the inputs of the switch mirror the controller still.
//!
//! `specs/Way` has which requests are on their way, and when a node is mirrored; `specs/Law` the statements, and
//! `specs/Ticks` that a tick at peace puts into that queue what it asks. `proofs/Asking` has the frames that ask,
//! `proofs/Switches` what a cell makes of a switch, `proofs/Sites` what becomes of a node, `proofs/Carries` and `proofs/Events` the
//! events, and `proofs/Stretches` a stretch of them; `proofs/Sending`, `proofs/Telling` and `proofs/Ticks` go through a tick. There is
//! no code that runs.
#![tactic(auto)]

ghost use Rattle.law_live_mirrored_worlds.specs.Ticks.{TicksAsk, TicksMirror, TicksPutWhatTheyAsk};
ghost use Rattle.law_live_mirrored_worlds.specs.Law.{RestsMirror, MirrorsCarryOut, CarriesDownMirror, AllElseMirrors, StepsKeep, ControllersMirror, StretchesCarryOut};

/// A node stays mirrored, and each request that comes next is carried out. It does nothing, and its contract is the statements.
pub fn nodes_stay_mirrored()
    ensures rests { RestsMirror }
    ensures carried { MirrorsCarryOut }
    ensures down { CarriesDownMirror }
    ensures others { AllElseMirrors }
    ensures steps { StepsKeep }
    ensures controllers { ControllersMirror }
    ensures stretches { StretchesCarryOut }
{}

/// A tick at peace keeps a node mirrored, and puts into the queue to its switch what it asks. It does nothing, and its contract is
/// the statements.
pub fn ticks_keep_nodes_mirrored()
    ensures put { TicksPutWhatTheyAsk }
    ensures asks { TicksAsk }
    ensures mirrored { TicksMirror }
{}
