//! The ports of a switch.

use net_types::PortNo;

/// The state of a switch port (RFC 1987, Port Management): whether it is up, and its Port Session
/// Number.
#[derive(Clone, Copy, Debug, PartialEq, Eq)]
pub struct PortState {
    /// The port.
    pub number: PortNo,
    /// Whether it is up.
    pub is_up: bool,
    /// Its Port Session Number.
    pub session: u32,
}
