//! The receiving half of a port's IFMP engine (RFC 1953): a message comes, and is taken, answered
//! or refused. Each call is proved to be a rule of `port_model`.
//!
//! | Module | Rules |
//! |---|---|
//! | `hearing` | *Numbers*: which messages are taken |
//! | `greeting` | *IFMP adjacency*: a session begins |
//! | `redirection` | *Redirect* |
//! | `reclaiming` | *Reclaim*, *Reclaim Ack*, *Label Range*, *Error* |
#![tactic(auto)]

mod greeting;
mod hearing;
mod reclaiming;
mod redirection;

pub use greeting::tick_side;
pub use hearing::{hear, label_by};
pub use reclaiming::{recall, reclaim_again, take_back};
