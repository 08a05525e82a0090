//! The crossbar of an ATM switch as plain data: a finite map of branches from inputs to outputs,
//! and a list of cells that wait at each port. The definitions stand in `specs/`; here are the
//! types of their data, and which channels can be connected.
#![tactic(auto)]

mod branch;
mod channels;
mod routed;

pub use branch::Branch;
pub use channels::is_connectable;
pub use routed::Routed;
