//! A foreign function interface of octets in memory, the edge of a call: the words of its command,
//! a sink that keeps what it takes, and the room that the caller has for the output.
#![tactic(auto)]

mod room;
mod sink;
mod words;

pub use room::hand_out;
pub use sink::GrowingSink;
pub use words::{WordsFault, read_words};
