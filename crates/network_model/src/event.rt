//! What can happen in a network.

use ipv4_forward::RouteChange;
use net_types::{Channel, NodeId, Octets, Place};

/// A transition of the network (an event): of one actor, or of one cell between two. This project's
/// own.
#[derive(Debug, Drop)]
pub enum Event {
    /// A packet enters the network.
    Inject {
        /// The node that is to send it.
        node: NodeId,
        /// Its octets.
        octets: Octets,
    },
    /// The first cell of a queue is handed to the actor at its other end.
    Carry(Place),
    /// The first cell of a queue is lost.
    Lose(Place),
    /// A tick of a node's controller.
    Tick(NodeId),
    /// A tick of a node's switch.
    TickSwitch(NodeId),
    /// A node's controller restarts.
    Restart(NodeId),
    /// A node's switch restarts.
    RestartSwitch(NodeId),
    /// The cells of a frame that no actor made join a queue.
    Forge {
        /// The queue.
        place: Place,
        /// The channel of the cells: VPI 0 to 255.
        channel: Channel,
        /// The frame's payload, 1 to 1,528 octets.
        payload: Octets,
    },
    /// A change of a route comes to a node's controller.
    Route {
        /// The node.
        node: NodeId,
        /// The change.
        change: RouteChange,
    },
}
