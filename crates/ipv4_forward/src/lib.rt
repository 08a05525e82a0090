//! The routing table and the routing step of an IPv4 router (RFC 1812 5.2).
#![tactic(auto)]

mod change;
mod outcome;
mod step;
mod table;

pub use change::{ChangeFault, RouteChange};
pub use outcome::Hop;
pub use step::hop;
pub use table::{AddFault, Next, ROUTES, Route, Table};
