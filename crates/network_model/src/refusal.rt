//! Why a line of a script can't mean what it says.

/// A configuration error: why a line can't be added to a topology. This project's own.
#[derive(Clone, Copy, Debug, PartialEq, Eq)]
pub enum TopologyRefusal {
    /// A node has this name.
    DuplicateName,
    /// There are as many nodes, or links, as there can be.
    TooMany,
    /// No node has this name.
    UnknownName,
    /// A link would join a node to itself.
    SelfLink,
    /// A port is linked already.
    PortTaken,
    /// The port that a route names isn't linked.
    NoLink,
    /// The node has a route for this prefix.
    Duplicate,
    /// The node has as many routes as a table holds.
    TableFull,
}

/// A semantic error of an event: why it can't come to the network of a topology. This project's
/// own.
#[derive(Clone, Copy, Debug, PartialEq, Eq)]
pub enum EventRefusal {
    /// No node has this name.
    UnknownName,
    /// The port isn't linked.
    NoLink,
    /// The node would have more routes than a table holds.
    TableFull,
    /// The node has no route for this prefix.
    NoPrefix,
}
