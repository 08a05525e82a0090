//! Cells in queues.

use crate::end::TraceEnd;
use net_types::{Channel, Mark};

/// A cell of a trace: one that stands in a queue, by its channel and the mark of its frame. This
/// project's own.
#[derive(Clone, Copy, Debug, PartialEq, Eq)]
pub struct TraceCell {
    /// Its channel.
    pub channel: Channel,
    /// The mark of its frame.
    pub mark: Mark,
}

/// A cell arrival of a trace: a cell that was carried from a port to the other end of its link.
/// This project's own.
#[derive(Clone, Copy, Debug, PartialEq, Eq)]
pub struct Taken {
    /// The port.
    pub end: TraceEnd,
    /// The cell.
    pub cell: TraceCell,
}
