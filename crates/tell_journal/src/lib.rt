//! An observer that writes an event log of a script as JSON Lines (its journal; RFC 8259): a line
//! where its network opens, one of each event that does something, and one at last. Each is a
//! function of the script's run, in `specs/`.
#![tactic(auto)]

mod cells;
mod event;
mod json;
mod last;
mod network;
mod put;
mod teller;

pub use teller::JournalTeller;
