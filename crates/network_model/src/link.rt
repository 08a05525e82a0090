//! The ends of links.

use net_types::{NodeId, PortNo};

/// An interface of an IP switch (an end of a link): a node and a port of it, 1 to 8. This project's
/// own.
#[derive(Clone, Copy, Debug, PartialEq, Eq, Hash)]
pub struct LinkEnd {
    /// The node.
    pub node: NodeId,
    /// The port, 1 to 8.
    pub port: PortNo,
}
