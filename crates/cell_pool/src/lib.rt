//! A shared cell buffer memory (a region of slots), in which every queue and reassembly buffer of a
//! node lives. A [`Slot`] is one cell buffer of it that was taken; a [`Queue`] is threaded through
//! the region and takes no memory of its own; a [`Chain`] is the list of at most 32 cells that one
//! channel's reassembly holds.
//!
//! Contracts see the region, queues and chains as plain data (`specs/Region.antt`): with its region
//! a queue or a chain is a list of distinct slots, and so of cells.
#![tactic(auto)]

mod chain;
mod pool;
mod queue;
mod store;

pub use chain::{CHAIN_CELLS, Chain};
pub use pool::{Pool, Slot};
pub use queue::Queue;
pub use store::ChainStore;
