//! The event log of a run (its records), its drop log (the loss ledger), and the payloads of the
//! frames that it made.
#![tactic(auto)]

mod entries;
mod frames;
mod ledger;
mod notes;
mod record;

pub use frames::Frame;
pub use ledger::Ledger;
pub use notes::Notes;
pub use record::{Cause, DropCause, Layer, Record, Refusal};
