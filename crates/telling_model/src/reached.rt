//! The actor that an event reaches.

use net_types::NodeId;

/// The target of a transition: the actor that an event reaches. Cells come to the ends of its
/// queues alone. This project's own.
#[derive(Clone, Copy, Debug, PartialEq, Eq)]
pub enum Reached {
    /// None: a cell is lost, or the queue to be carried from is empty.
    Nobody,
    /// The controller of a node.
    Controller(NodeId),
    /// The switch of a node.
    Switch(NodeId),
}
