//! The sending half of a port's IFMP engine (RFC 1953): messages of its adjacency, and redirection
//! messages under its own numbers until these are spent. And how it quits labels that its peer
//! can't use any more. Each call is proved to be a rule of `port_model`.
//!
//! | Module | Rules |
//! |---|---|
//! | `saying` | numbered messages, and the end of the numbers |
//! | `quitting` | *IFMP adjacency*: labels are quit that the peer can't use any more |
//! | `room` | the limit of standing requests |
//! | `stop` | why a rule of the port does nothing more |
#![tactic(auto)]

mod quitting;
mod room;
mod saying;
mod stop;

pub use quitting::{is_recalled, quit, unwire};
pub use room::has_room;
pub use saying::{
    ErrorCode, Unnumbered, greet, say, say_error, say_range, say_reclaim, say_redirect, tell,
};
pub use stop::{Stop, done};
