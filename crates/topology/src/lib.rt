//! The configuration of a network (its topology), line by line: its nodes by number and by name,
//! the ranges of their labels, their routes, and the links between their ports.
#![tactic(auto)]

mod fault;
mod links;
mod node;
mod nodes;
mod plan;
mod routes;
mod settings;
mod topology;

pub use fault::TopologyFault;
pub use routes::RouteList;
pub use topology::Topology;
pub use world_model::{Event, TopologyLine, TopologyRefusal};
