//! An observer that writes the cell-level trace of a run: what passes on the links of a network,
//! line by line, as an auditor of traces reads it. Which ports are linked comes first; then, event
//! by event, the cell that was carried from a port's queue or lost there, each cell that came to
//! the end of one, and each channel that was bound. A frame is told before its first cell on a
//! label's channel.
#![tactic(auto)]

mod cells;
mod law;
mod lines;
mod marks;
mod tell;
mod teller;

pub use law::passages_are_read;
pub use teller::TraceTeller;
