//! The outstanding requests of a controller (RFC 1987) with their handles: its desk, with the
//! ticket of each request that stands. A request that is asked withdraws what it withdraws, so that
//! none of its caller need keep a ticket.
#![tactic(auto)]

mod answer;
mod book;
mod tickets;

pub use answer::{Answer, Redeemable};
pub use book::RequestBook;
