//! The IFMP state of a router's interface (a port of a controller; RFC 1953), as its rules find and
//! leave it: what stays the same of it with its policy, its adjacency, its session and its grants.
//! What each part is is defined in `port_model`.
#![tactic(auto)]

mod grants;
mod labels;
mod setup;
mod side;
mod state;

pub use setup::PortSetup;
pub use state::PortState;
