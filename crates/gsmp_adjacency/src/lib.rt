//! The adjacency protocol of GSMP (RFC 1987, Adjacency Protocol): the adjacency table for a
//! controller and a switch, each known by its name, port and instance. On entering Estab it hands
//! out an [`Established`], which stands for the own party and has to be spent.
#![tactic(auto)]

mod adjacency;
mod established;

pub use adjacency::{Adjacency, Answer};
pub use adjacency_table::State;
pub use established::Established;
