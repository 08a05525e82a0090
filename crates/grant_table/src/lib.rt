//! The outgoing labels of a port (its remote bindings, here grants): those under which it may send
//! (RFC 1953), in the order in which they were accepted. What a grant is, and which is used for a
//! packet, is defined in `port_model`.
#![tactic(auto)]

mod grant;
mod grants;
mod held;
mod laws;
mod table;
mod tags;

pub use grants::MOST_GRANTS;
pub use laws::tables_are_the_ports;
pub use table::{AcceptFault, Accepted, GrantState, GrantTable, GrantView};
