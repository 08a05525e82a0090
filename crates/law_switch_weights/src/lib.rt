//! The ranking function over a switch: a cell that comes to it adds to the measure of `claims_model` what it weighs
//! where its branch leads it, or what the frame that it ends on GSMP's channel may cause. Definitions and laws alone:
//! `specs/Coming` has the statement, `proofs/Queues` the sums over the queues, `proofs/Switches` what each step of a
//! switch costs. There is no code that runs.
#![tactic(auto)]

ghost use Rattle.law_switch_weights.specs.Coming.{CellsArePaid};

/// A cell that comes to a switch costs at most what it weighs where it goes on, or what the frame that it ends may cause. It
/// does nothing, and its contract is the statement.
pub fn switches_are_paid()
    ensures cells { CellsArePaid }
{}
