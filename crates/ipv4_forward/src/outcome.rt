//! The outcomes of the routing step.

use net_types::PortNo;

/// A forwarding decision (a hop): what a router does with a packet (RFC 1812 5.2.1).
#[derive(Clone, Copy, Debug, PartialEq, Eq)]
pub enum Hop {
    /// It is the packet's destination.
    Here,
    /// It sends the packet out of this port.
    On(PortNo),
    /// It drops the packet, since no route covers its destination.
    NoRoute,
    /// It drops the packet, whose Time To Live would become 0 (RFC 1812 5.3.1).
    Expired,
}
