//! Packets of a capture in the format pcapng, made of the frames on links: the cells that are
//! carried from each queue on each channel are kept until one ends a frame, and these make a
//! packet, with the text of its frame.
#![tactic(auto)]

mod packet;
mod queue;
mod tap;
mod taps;

pub use packet::packet_block;
pub use queue::{Queue, TapKey};
pub use tap::Tap;
pub use taps::Taps;
