//! How the payload of an AAL5 frame carries an IPv4 packet: whole, behind an LLC/SNAP header, on
//! the default channel (RFC 1483 4.1); and without the fields that its flow tells, under the label of
//! that flow (after RFC 1954).
#![tactic(auto)]

mod default;
mod labelled;
mod laws;

pub use default::{EncapsFault, unwrap_default, wrap_default};
pub use labelled::{unwrap_flow, wrap_flow};
pub use laws::{
    a_hop_keeps_the_payload, flow_and_packet_have_one_payload, flow_and_payload_have_one_packet,
};
