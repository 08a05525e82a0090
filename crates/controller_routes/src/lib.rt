//! The routing table of a controller with its pending updates: the routes, and the changes of them
//! that wait until no join is left whose flow they lead elsewhere. When a change is begun and taken
//! is the controller's rule *Changes of routes*; see `world_model`.
#![tactic(auto)]

mod differs;
mod routes;

pub use differs::destination_of;
pub use routes::Routes;
