//! What the words of a line say.

use ipv4_forward::Next;
use net_types::{Addr, Channel, PortNo, Prefix};

/// The output queue of a node that a line names (its side). This project's own.
#[derive(Clone, Copy, Debug, PartialEq, Eq)]
pub enum Side {
    /// From its controller to its switch.
    FromController,
    /// From a port of its switch: from port 0 to its controller, from another one towards the other
    /// end of the port's link.
    FromPort(PortNo),
}

/// A parsed declaration of a script: what a line says of the topology, with nodes by their names and
/// labels by their numbers. This project's own.
#[derive(Clone, Copy, Debug)]
pub enum Described<'a> {
    /// The version of the script.
    Version {
        /// 1, or 2 for labels with a VPI.
        version: u8,
    },
    /// There is a node.
    Node {
        /// Its name.
        name: &'a [u8],
        /// Its address.
        address: Addr,
    },
    /// The slots of each of a node's two regions.
    Cells {
        /// The node's name.
        name: &'a [u8],
        /// How many cells each holds, 1 to 16,384.
        cells: u32,
    },
    /// The labels that a port hands out.
    Labels {
        /// The node's name.
        name: &'a [u8],
        /// The port, 1 to 8.
        port: PortNo,
        /// The least label.
        lo: u16,
        /// The greatest label.
        hi: u16,
    },
    /// A link joins two ports.
    Link {
        /// A node's name.
        first: &'a [u8],
        /// A port of it, 1 to 8.
        first_port: PortNo,
        /// Another node's name.
        second: &'a [u8],
        /// A port of it, 1 to 8.
        second_port: PortNo,
    },
    /// A route to the other end of a port's link.
    RouteVia {
        /// The node's name.
        name: &'a [u8],
        /// The destinations.
        prefix: Prefix,
        /// The port, 1 to 8.
        port: PortNo,
    },
    /// A route to the node itself.
    RouteLocal {
        /// The node's name.
        name: &'a [u8],
        /// The destinations.
        prefix: Prefix,
    },
    /// A flow is offered a label from so many packets on in so many ticks.
    PolicyXy {
        /// How many packets, 1 to 65,535.
        x: u32,
        /// How many ticks, 1 to 64.
        y: u32,
    },
    /// No flow is offered a label.
    PolicyNever,
    /// The times of labels, 1 to 65,535 ticks each.
    Timers {
        /// For how long a Redirect holds.
        lifetime: u16,
        /// After how long it is sent again.
        refresh: u16,
        /// For how long a label may be idle.
        idle: u16,
    },
}

/// A parsed statement of a script: what a line says that isn't blank, with nodes by their names. It
/// borrows the line's octets, and has no memory of its own. This project's own.
#[derive(Clone, Copy, Debug)]
pub enum Said<'a> {
    /// Something of the topology.
    Describes(Described<'a>),
    /// A node sends a packet.
    Sends {
        /// The node's name.
        name: &'a [u8],
        /// The packet's octets, two hexadecimal digits of either case for each.
        digits: &'a [u8],
    },
    /// The first cell of a queue is carried to its other end.
    Carries {
        /// The node's name.
        name: &'a [u8],
        /// The queue.
        side: Side,
    },
    /// The first cell of a queue is lost.
    Loses {
        /// The node's name.
        name: &'a [u8],
        /// The queue.
        side: Side,
    },
    /// A tick of a node's controller.
    Ticks {
        /// The node's name.
        name: &'a [u8],
    },
    /// A tick of each controller, and then of each switch.
    TicksAll,
    /// A tick of a node's switch.
    TicksSwitch {
        /// The node's name.
        name: &'a [u8],
    },
    /// A node's controller restarts.
    Restarts {
        /// The node's name.
        name: &'a [u8],
    },
    /// A node's switch restarts.
    RestartsSwitch {
        /// The node's name.
        name: &'a [u8],
    },
    /// So many rounds, 1 to 100,000, each a carry of each queue.
    Runs {
        /// How many.
        rounds: u32,
    },
    /// The cells of a frame that no actor made join a queue.
    Forges {
        /// The node's name.
        name: &'a [u8],
        /// The queue.
        side: Side,
        /// The channel of the cells: VPI 0 to 255.
        channel: Channel,
        /// The octets of the frame's payload, at most 1,528, two hexadecimal digits of either case for each.
        digits: &'a [u8],
    },
    /// A route of a node changes.
    Routes {
        /// The node's name.
        name: &'a [u8],
        /// The route's destinations.
        prefix: Prefix,
        /// Where their packets go from now on; `None` where the route goes.
        next: Option<Next>,
    },
}
