//! The ranking function over a controller: a cell that comes to it adds nothing to the measure of `claims_model`, but
//! for what the frame that it ends may cause. Definitions and laws alone: `specs/Coming` has what is asked of the cell,
//! and the statement.
//!
//! The proof goes over all that a cell can lead to. What a port asks is paid by its actions (`law_action_weights`), what an answer
//! causes by the request that stood (`proofs/Answering`), and a packet that goes on by its Time To Live (`Packets`); `Cells`
//! puts them together. There is no code that runs.
#![tactic(auto)]

ghost use Rattle.law_controller_weights.specs.Coming.{CellsArePaid};

/// A cell that comes to a controller costs at most what the frame that it ends may cause. It does nothing, and its contract
/// is the statement.
pub fn controllers_are_paid()
    ensures cells { CellsArePaid }
{}
