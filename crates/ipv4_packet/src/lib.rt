//! IPv4 packets with a header of 20 octets: which octets are one, their fields, and the two writes
//! that a router makes; and their flows: which packets are forwarded alike, and the flow
//! identifiers that name them in messages.
//!
//! | Octets | Field (RFC 791 3.1) |
//! |---|---|
//! | 0 | version 4, header length 5 words: 45 (hexadecimal) |
//! | 1 | Type of Service |
//! | 2 to 3 | Total Length, in octets |
//! | 4 to 5 | Identification |
//! | 6 to 7 | Flags (3 bits), Fragment Offset (13 bits) |
//! | 8 | Time To Live |
//! | 9 | Protocol |
//! | 10 to 11 | Header Checksum (RFC 1071) |
//! | 12 to 15 | Source Address |
//! | 16 to 19 | Destination Address |
#![tactic(auto)]

mod checksum;
mod flow;
mod identifier;
mod laws;
mod read;
mod validate;
mod write;

pub use checksum::internet_sum;
pub use flow::{FlowId, FlowKind, matches, next_hop, of_packet};
pub use identifier::{FlowFault, read_identifier, write_identifier};
pub use laws::flow_keeps_over_a_hop;
pub use read::{destination, fragment, identification, protocol, source, tos, total_length, ttl};
pub use validate::{MAX_PACKET, PacketFault, check};
pub use write::{IFMP_PROTOCOL, ifmp_packet, set_ttl, write_checksum};
