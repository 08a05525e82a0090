//! A cell and its queue.

use atm_cells::Cell;
use net_types::Place;

/// A queued cell: one that stands, or stood, in an output queue, with that queue. This project's
/// own.
#[derive(Clone, Copy, Debug, PartialEq, Eq)]
pub struct Standing {
    /// The queue.
    pub place: Place,
    /// The cell.
    pub cell: Cell,
}
