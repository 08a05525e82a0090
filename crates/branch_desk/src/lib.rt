//! The outstanding requests of a GSMP client (its desk; RFC 1987): those that it asked of its
//! switch and that aren't answered yet. What a request asks, when it is answered and what replaces
//! it is defined in `port_model`.
#![tactic(auto)]

mod answered;
mod by_end;
mod desk;
mod entry;
mod message;
mod requests;
mod ticket;

pub use answered::{Answered, Ports};
pub use by_end::MOST_REQUESTS;
pub use desk::{Desk, DeskFull, MOST_ASKED};
pub use gsmp_wire::Request;
pub use ticket::{BranchDone, Ticket, redeem};
