//! The messages of the Ipsilon Flow Management Protocol as octets (after RFC 1953; the layout is
//! this project's own). Numbers have their highest octet first.
//!
//! Octet 0 is the version, 1. Octet 1 is the op code. Octets 2 to 3 are the Internet checksum of the
//! whole message with this field zero (RFC 1071). A label is 4 octets: 0, VPI, VCI (2).
//!
//! | Op code | Octets from 4 on | Length |
//! |---|---|---|
//! | 0 SYN, 1 SYNACK, 2 RSTACK, 3 ACK | Sender Instance (4), Peer Instance (4), Peer Identity (4), Peer Next Sequence Number (4) | 20 |
//! | 4 REDIRECT | *names*, Flow Type (1), Flow Length in words of 4 octets (1), Lifetime in ticks (2), Label (4), flow identifier | 40 or 36 |
//! | 5 RECLAIM | *names*, Flow Type, Flow Length, 0 (2), Label, flow identifier | 40 or 36 |
//! | 6 RECLAIM ACK | as RECLAIM | 40 or 36 |
//! | 7 LABEL RANGE | *names*, least Label (4), greatest Label (4) | 24 |
//! | 8 ERROR | *names*, code (1), 0 (3), Label (4) | 24 |
//!
//! *names* are Sender Instance (4), Peer Instance (4) and Sequence Number (4).
#![tactic(auto)]

mod laws;
mod message;
mod reader;
mod writer;

pub use laws::{octets_are_accepted, octets_tell_one_message};
pub use message::{Message, Names};
pub use reader::{Fault, decode};
pub use writer::encode;
