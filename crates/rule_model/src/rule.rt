//! Rules.

use net_types::Prefix;

/// The protocol of an access list entry: of which flows a rule is, by their flow type (RFC 1953)
/// and protocol.
#[derive(Clone, Copy, Debug, PartialEq, Eq)]
pub enum Protocol {
    /// `udp`: flows of type 1 over UDP.
    Udp,
    /// `tcp`: flows of type 1 over TCP.
    Tcp,
    /// `two`: flows of type 2.
    Two,
    /// `any`: flows of both types.
    Any,
}

/// The port match of an access list entry: the TCP or UDP ports that a rule takes. This project's
/// own.
#[derive(Clone, Copy, Debug, PartialEq, Eq)]
pub enum Ports {
    /// `any`: all, also where a flow has none.
    Any,
    /// `LO-HI`: those from one port to another, both included.
    Between {
        /// The least.
        least: u16,
        /// The greatest.
        greatest: u16,
    },
}

/// The action of an access list entry: what a rule decides of a flow. This project's own.
#[derive(Clone, Copy, Debug, PartialEq, Eq)]
pub enum Decision {
    /// It is never offered a label.
    Deny,
    /// It is offered a label by its packets, and keeps it by its idle time.
    Offer {
        /// From so many packets in the window on, 1 to 65,535.
        after: u32,
        /// For at most so many idle ticks, 1 to 65,535.
        keep: u32,
    },
}

/// An access list entry (a rule): the flows that it matches, and what it decides of them. This
/// project's own.
#[derive(Clone, Copy, Debug, PartialEq, Eq)]
pub struct Rule {
    /// Their type and protocol.
    pub protocol: Protocol,
    /// Their sources.
    pub source: Prefix,
    /// Their destinations.
    pub destination: Prefix,
    /// Their source ports.
    pub source_ports: Ports,
    /// Their destination ports.
    pub destination_ports: Ports,
    /// What it decides.
    pub decision: Decision,
}
