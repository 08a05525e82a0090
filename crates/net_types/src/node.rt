//! Nodes, ports and the queues between them.

/// An IP switch of a network (a node), by its number: `NodeId(i)` is that of the i-th `node` line,
/// counted from 1. This project's own.
#[derive(Clone, Copy, Debug, PartialEq, Eq, Hash)]
pub struct NodeId(pub u8);

/// A port number of a node's ATM switch (RFC 1987, Port): 0 is the control port, to which the
/// controller is connected, and 1 to 8 are those that a link can name.
#[derive(Clone, Copy, Debug, PartialEq, Eq, Hash)]
pub struct PortNo(pub u8);

/// The control port of a switch, at which its controller is.
pub const CONTROL_PORT: PortNo = PortNo(0);

/// The greatest number of a port that a link can name. It is this project's own limit.
pub const LAST_PORT: u8 = 8;

/// The ports that a link can name, in the order of their numbers. This project's own.
pub static LINK_PORTS: [PortNo; LAST_PORT as usize] = [
    PortNo(1),
    PortNo(2),
    PortNo(3),
    PortNo(4),
    PortNo(5),
    PortNo(6),
    PortNo(7),
    PortNo(8),
];

/// How many ports a switch has at most, and queues of cells: one for its control port and one for each
/// port that a link can name.
pub const PORTS: usize = 9;

/// An output queue of cells in a network (a place), by the node and the side where it begins. This
/// project's own.
#[derive(Clone, Copy, Debug, PartialEq, Eq)]
pub enum Place {
    /// From a node's controller to its switch.
    Down(NodeId),
    /// From port 0 of a node's switch to its controller.
    Up(NodeId),
    /// From a port of a node's switch towards the other end of its link.
    Out(NodeId, PortNo),
}
