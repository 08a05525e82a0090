//! An observer that writes a packet capture in the format pcapng: the frames on the links of a
//! network, as a file that packet analysers open. Each queue is an interface, and each last cell
//! that is carried ends a packet: that of the cells that were carried from its queue on its channel
//! since the last one before it that was a last one.
#![tactic(auto)]

mod interface;
mod teller;

pub use teller::CaptureTeller;
