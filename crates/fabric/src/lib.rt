//! The fabric of an ATM switch: which input goes to which output, and the cells that wait at each
//! port. Queues live in one region of slots, which the switch's own chain shares.
//!
//! Contracts see the fabric as plain data (`specs/Crossbar.antt`): a finite map of branches and a
//! list of cells for each port, over the region (`specs/Fabric.antt`).
#![tactic(auto)]

mod branches;
mod fabric;
mod place;
mod row;
mod store;

pub use crossbar_model::{Branch, Routed};
pub use fabric::Fabric;
