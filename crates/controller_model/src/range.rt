//! The linked ports of a controller.

use net_types::PortNo;

/// A label range (RFC 1953, Label Range): a linked port with the least and the greatest of its
/// labels, by their numbers.
#[derive(Clone, Copy, Debug, PartialEq, Eq)]
pub struct PortRange {
    /// The port, 1 to 8.
    pub port: PortNo,
    /// The number of the least label.
    pub lo: u16,
    /// The number of the greatest label.
    pub hi: u16,
}
