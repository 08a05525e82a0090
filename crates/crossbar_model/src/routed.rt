//! Where a cell went.

use net_types::End;

/// The switching of one cell: where it went that came on a port of a switch. This project's own.
#[derive(Clone, Copy, Debug, PartialEq, Eq)]
pub enum Routed {
    /// To the end of this output's queue.
    Out(End),
    /// Nowhere: its channel has no branch.
    Unconnected,
    /// Nowhere: no slot was free.
    PoolFull,
}
