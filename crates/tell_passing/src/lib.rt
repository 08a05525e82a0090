//! Monitoring of a network's queues: what an event takes from them, puts there and makes, told by a
//! look at the network before the event and one behind it. The words are those of `telling_model`.
#![tactic(auto)]

mod before;
mod lengths;
mod reach;

pub use before::Before;
