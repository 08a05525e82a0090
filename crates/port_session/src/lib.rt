//! The IFMP session of a port, which it has exactly while its adjacency is in state ESTAB (RFC
//! 1953): its labels, those that are spare and those that are held, the flows that it counts, and
//! the numbers of both ends. What a session is is defined in `port_model`.
#![tactic(auto)]

mod session;

pub use session::{LAST_NUMBER, Session};
