//! The records of a run: what became of packets, frames and cells.

use ipv4_packet::FlowId;
use net_types::{Mark, NodeId, Octets, Place, PortNo};

/// A drop reason of a frame: why it may be gone, as an entry of the loss ledger has it. This
/// project's own.
#[derive(Clone, Copy, Debug, PartialEq, Eq)]
pub enum Cause {
    /// A link lost one of its cells.
    Lost,
    /// A switch had no branch for one of its cells.
    Unconnected,
    /// No slot was free for one of its cells, or too few for the frame.
    PoolFull,
    /// A branch changed or ended, or a chain of cells was cut, while the frame was open there.
    Cut,
    /// A controller takes no such channel and has no binding of it.
    Unbound,
    /// A reassembly gave up a chain with one of its cells, or skipped one of them.
    Broken,
}

/// A drop reason of a packet: why a router drops it (RFC 1812 5.2.4.3, 5.3.1).
#[derive(Clone, Copy, Debug, PartialEq, Eq)]
pub enum DropCause {
    /// No route has its destination.
    NoRoute,
    /// Its time to live ends here.
    Expired,
}

/// A protocol layer: the part of a node that refuses what a frame holds. This project's own.
#[derive(Clone, Copy, Debug, PartialEq, Eq)]
pub enum Layer {
    /// The encapsulation of the frame (RFC 1483, RFC 1954).
    Encaps,
    /// The IPv4 packet (RFC 791 3.1).
    Packet,
    /// The IFMP message (RFC 1953).
    Ifmp,
    /// The GSMP message (RFC 1987).
    Gsmp,
}

/// The name of a decoding error (a refusal), as a record shows it. The names are this project's
/// own.
#[derive(Clone, Copy, Debug, PartialEq, Eq)]
pub enum Refusal {
    /// Fewer octets than the header that should begin here has.
    Short,
    /// A packet of another version than 4, or a message of another version than its protocol's.
    Version,
    /// A packet with options.
    Options,
    /// A packet whose Total Length isn't its number of octets, or a labelled frame whose isn't its
    /// payload's.
    Length,
    /// A packet of more octets than a link takes, 1500.
    TooLong,
    /// A packet, a labelled frame or an IFMP message whose checksum is wrong.
    Checksum,
    /// A packet of the protocol of control messages, 101.
    ControlProtocol,
    /// A frame whose LLC and SNAP header isn't that of IPv4 (RFC 1483 4.1).
    BadSnap,
    /// A frame whose LLC and SNAP header isn't that of GSMP (RFC 1987).
    Snap,
    /// An IFMP message of an op code that there isn't.
    OpCode,
    /// A GSMP message of a Message Type that there isn't.
    MessageType,
    /// A GSMP message whose Result isn't one of its type.
    Result,
    /// A GSMP message whose Code isn't one of its type and Result.
    Code,
    /// A message of another length than its kind has.
    Size,
    /// An IFMP message of a flow type that there isn't.
    FlowType,
    /// An IFMP message whose Flow Length isn't that of its flow type.
    FlowLength,
    /// A Redirect whose lifetime is 0.
    ZeroLifetime,
    /// An IFMP message whose label doesn't begin with an octet 0.
    LabelReserved,
    /// A Label Range whose least label is above the greatest.
    RangeOrder,
    /// An IFMP Error whose code isn't 1 to 4.
    ErrorCode,
    /// A field that is to be 0 isn't, or one with few values has another.
    Reserved,
    /// An IFMP message whose flow identifier no flow has.
    FlowFields,
}

/// An entry of the event log of a run (a record): one thing that happened, as a line of the report
/// tells it. This project's own.
#[derive(Debug, Drop)]
pub enum Record {
    /// A packet reached a node that is its destination.
    Delivered {
        /// Where it came to.
        node: NodeId,
        /// Its number, from 1.
        packet: u32,
        /// The packet's octets.
        octets: Octets,
    },
    /// A router dropped a packet.
    Dropped {
        /// The router.
        node: NodeId,
        /// The packet's number, from 1.
        packet: u32,
        /// Why.
        cause: DropCause,
    },
    /// A node refused a packet that it was given to send.
    Refused {
        /// The node.
        node: NodeId,
        /// The packet's number, from 1.
        packet: u32,
        /// Why.
        name: Refusal,
    },
    /// An entry of the loss ledger.
    Loss {
        /// The frame that may be gone.
        mark: Mark,
        /// Why.
        cause: Cause,
    },
    /// A chain of cells passed the test of a frame with another payload than the one that was made.
    Chance {
        /// The mark of its last cell.
        mark: Mark,
    },
    /// A node refused what a good frame holds.
    Bad {
        /// The node.
        node: NodeId,
        /// Which part of it.
        layer: Layer,
        /// Why.
        name: Refusal,
    },
    /// A port of a node may hand out labels: its adjacency with the next node is established.
    Opened {
        /// The node.
        node: NodeId,
        /// The port.
        port: PortNo,
    },
    /// A port may hand out labels no more, and all that it did are void.
    Closed {
        /// The node.
        node: NodeId,
        /// The port.
        port: PortNo,
    },
    /// A label is bound to a flow, and offered to the node before.
    Bind {
        /// The node that receives what comes under the label.
        node: NodeId,
        /// The port that it comes in at.
        port: PortNo,
        /// The label's number.
        vci: u16,
        /// The flow.
        flow: FlowId,
    },
    /// A label is spare again.
    Free {
        /// The node.
        node: NodeId,
        /// The port.
        port: PortNo,
        /// The label's number.
        vci: u16,
    },
    /// A label's cells go on under a label of another port, and past the controller.
    Join {
        /// The node.
        node: NodeId,
        /// The port that the cells come in at.
        port: PortNo,
        /// The number of the label that they come under.
        vci: u16,
        /// The port that they go out at.
        to_port: PortNo,
        /// The number of the label that they go out under.
        to_vci: u16,
    },
    /// A joined label's cells go to the controller again, or nowhere.
    Part {
        /// The node.
        node: NodeId,
        /// The port that the cells come in at.
        port: PortNo,
        /// The number of the label that they come under.
        vci: u16,
    },
    /// A frame that no node made was put on a queue.
    Forged {
        /// The queue.
        place: Place,
    },
    /// A node goes by its changed routes from here on.
    Routes {
        /// The node.
        node: NodeId,
        /// The number of the change among those of the node, from 1.
        number: u32,
    },
}
