//! The IFMP engine of one interface of a router (a port of a controller; RFC 1953) as plain data,
//! with a function for each rule: the labels that the port hands out, the labels under which it may
//! send, the flows that it counts, its adjacency. Definitions alone, in `specs/`; here are only the
//! types of their data.
#![tactic(auto)]

mod action;
mod timers;

pub use action::Action;
pub use timers::Timers;
