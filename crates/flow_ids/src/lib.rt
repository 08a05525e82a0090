//! The flows of packets and their flow identifiers (RFC 1953), which stand in `ipv4_packet`: what
//! it has of them, and no more. A crate that exports a function named `write` is refused, since
//! that is a macro of the kit.
#![tactic(auto)]

pub use ipv4_packet::{
    FlowFault, FlowId, FlowKind, matches, next_hop, of_packet, read_identifier, write_identifier,
};
