//! Drop reasons of broken frames: why frames break in a network of IP switches.
//!
//! A frame that is broken stands beside a cause. In every run of a network in which no frame is forged, where an
//! event adds to the ledger that a frame is `Broken`, a channel takes a cell in that event (a channel of a
//! controller, or the GSMP channel of a switch), and the frame's mark stands in that channel's stretch beside the
//! mark of an earlier entry of another cause. It is proved under one premise on each world of the run: that each list
//! of cells is fed by one other at most (`IsFedOnce`, in `specs/Feeding.antt`).
//!
//! The cells of each queue are seen by channel, as lists that lead to one another (`law_cell_lists`): which list leads
//! where is told by the branches of the switches and by the links. Each event changes one list or two, and keeps what
//! holds between neighbours.
//!
//! Definitions and laws; no code runs.
#![tactic(auto)]

ghost use Rattle.law_causes.specs.Law.{BreaksHaveCauses, GathersInRuns};

/// In every run cells are gathered for labels that are bound alone; and where nothing is forged and each list of cells
/// is fed once, each frame that is broken stands beside its cause. It does nothing, and its contract is the statement.
pub fn breaks_have_causes()
    ensures gathered { GathersInRuns }
    ensures causes { BreaksHaveCauses }
{}
