//! The text of IFMP and GSMP messages (RFC 1953, RFC 1987), as a packet analyser shows them, the
//! names of the refusals, and what the hexadecimal lines of an input are decoded to. The texts are
//! functions of the message in `specs/`. Where memory is wanting, what stood there is still in front,
//! and behind it stands a front of the message's text, or nothing.
#![tactic(auto)]

mod fields;
mod gsmp;
mod ifmp;
mod listing;
mod protocol;

pub use gsmp::write_gsmp;
pub use ifmp::write_ifmp;
pub use listing::{Listed, list_messages};
pub use protocol::Protocol;
