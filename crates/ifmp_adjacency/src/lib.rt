//! The adjacency protocol of IFMP (RFC 1953, IFMP Adjacency Protocol): the adjacency table for
//! routers that are known by an instance and an address. On entering Estab it hands out an
//! [`Established`], which stands for the own instance and has to be spent.
#![tactic(auto)]

mod adjacency;
mod established;

pub use adjacency::{Adjacency, Answer};
pub use adjacency_table::State;
pub use established::Established;
