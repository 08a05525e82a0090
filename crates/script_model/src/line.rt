//! What a line of a script says.

use world_model::{Event, TopologyLine};

/// A statement of a script: what a line says, with the nodes of an event by their numbers. This
/// project's own.
#[derive(Debug, Drop)]
pub enum Line {
    /// Nothing.
    Blank,
    /// Something of the topology.
    Topology(TopologyLine),
    /// One event.
    Event(Event),
    /// A tick of each controller, and then of each switch.
    TickAll,
    /// So many rounds, each a carry of each queue.
    Run(u32),
}
