//! The incoming labels that a port can hand out (RFC 1953), as values that can't be lost: a label
//! is in one state, goes from each to the next by its evidence, and has to be put back into its
//! pool or given up. What a label is, and which is handed out, is defined in `port_model`.
#![tactic(auto)]

mod between;
mod label;
mod laws;
mod marks;
mod pool;

pub use label::{Label, Offered, Quit, Recalled, Spare, Wired};
pub use laws::pools_are_the_ports;
pub use pool::LabelPool;
