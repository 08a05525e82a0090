//! Formatting of frames as text: each is named by what its octets are, a message, a packet, or
//! octets alone.
#![tactic(auto)]

mod frame;
mod packet;

pub use frame::write_frame;
