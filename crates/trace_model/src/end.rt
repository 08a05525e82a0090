//! Ports and the channels on their links.

use net_types::{Channel, PortNo};

/// The host name of an IP switch (a node's name): its 1 to 16 lower-case letters and digits, a
/// letter first, and zeros behind them up to 16 octets. This project's own.
#[derive(Clone, Copy, Debug, PartialEq, Eq, Hash)]
pub struct NodeName(pub [u8; 16]);

/// An end of a link in a trace: a port of a node, and the output queue of the cells that go from
/// there to the other end. This project's own.
#[derive(Clone, Copy, Debug, PartialEq, Eq, Hash)]
pub struct TraceEnd {
    /// The node.
    pub node: NodeName,
    /// The port, 1 to 8.
    pub port: PortNo,
}

/// A label of a trace (RFC 1953): a channel at a port.
#[derive(Clone, Copy, Debug, PartialEq, Eq, Hash)]
pub struct TraceLabel {
    /// The port.
    pub end: TraceEnd,
    /// The channel.
    pub channel: Channel,
}
