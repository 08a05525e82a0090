//! A switch as plain data (RFC 1987): a record, with a function for each rule. Which requests it refuses
//! and why, what each that is carried out makes of it, what is answered, and what it does with a cell, a
//! tick and a restart. Definitions alone, in `specs/`, which share nothing with the code; here are only the
//! types of their data.
#![tactic(auto)]

mod port;
mod request;

pub use gsmp_wire::{Failure, Request};
pub use port::PortState;
pub use request::Asked;
