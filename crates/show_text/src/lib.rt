//! Formatting of a network's state as text, line by line, as a router's show commands have it: a
//! controller's adjacency, routes, changes that wait and requests that stand; a port's adjacency,
//! counted flows, labels and grants; a switch and its branches; the queues. The lines are functions
//! of the world, in `specs/`; each call appends one of them. Where memory is wanting, a front of it
//! may stand behind what stood there.
#![tactic(auto)]

mod counted;
mod grants;
mod labels;
mod node;
mod port;
mod routes;
mod switch;
mod totals;
mod words;

pub use counted::write_count;
pub use grants::write_grant;
pub use labels::write_label;
pub use node::{write_node, write_request};
pub use port::{write_numbers, write_peer, write_port, write_range};
pub use routes::{write_route, write_waiting};
pub use switch::{write_branch, write_queue, write_switch};
pub use totals::{Totals, write_end};
