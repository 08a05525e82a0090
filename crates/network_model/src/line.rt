//! What a script says of a topology.

use net_types::{Addr, Octets, PortNo, Prefix};

/// A configuration statement: one line of a script on nodes, links, routes, labels or timers. A
/// name is kept as the octets of its text, labels by their numbers. This project's own.
#[derive(Debug, Drop)]
pub enum TopologyLine {
    /// There is a node.
    Node {
        /// Its name.
        name: Octets,
        /// Its address.
        address: Addr,
    },
    /// The slots of each of a node's two regions.
    Cells {
        /// The node's name.
        name: Octets,
        /// How many cells each holds, 1 to 16,384.
        cells: u32,
    },
    /// The labels that a port hands out.
    Labels {
        /// The node's name.
        name: Octets,
        /// The port, 1 to 8.
        port: PortNo,
        /// The least label.
        lo: u16,
        /// The greatest label.
        hi: u16,
    },
    /// A link joins two ports.
    Link {
        /// A node's name and a port of it.
        first: (Octets, PortNo),
        /// Another node's name and a port of it.
        second: (Octets, PortNo),
    },
    /// A route to the other end of a port's link.
    RouteVia {
        /// The node's name.
        name: Octets,
        /// The destinations.
        prefix: Prefix,
        /// The port.
        port: PortNo,
    },
    /// A route to the node itself.
    RouteLocal {
        /// The node's name.
        name: Octets,
        /// The destinations.
        prefix: Prefix,
    },
    /// A flow is offered a label from so many packets on in so many ticks.
    PolicyXy {
        /// How many packets.
        x: u32,
        /// How many ticks.
        y: u32,
    },
    /// No flow is offered a label.
    PolicyNever,
    /// The times of labels, in ticks.
    Timers {
        /// For how long a REDIRECT holds.
        lifetime: u16,
        /// After how long it is sent again.
        refresh: u16,
        /// For how long a label may be idle.
        idle: u16,
    },
    /// The version of the script.
    Version {
        /// 1, or 2 for labels with a VPI.
        version: u8,
    },
}
