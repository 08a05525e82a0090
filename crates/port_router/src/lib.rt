//! The IFMP engine of one interface of a router (a port; `redirect_state`), as what a router asks
//! of one.
#![tactic(auto)]

mod port;

pub use port::RouterPort;
