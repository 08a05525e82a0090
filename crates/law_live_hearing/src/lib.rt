//! What is said is heard (RFC 1953, RFC 1987): a frame whose last cell waits in a queue, of which the ledger never has an
//! entry, is taken whole by its receiver before the links are empty, with the payload that was made under its mark, and acts
//! there. So between a controller and its switch, and between the controllers at the two ends of a link.
//!
//! `specs/Law` has the statements. The last cell is followed from queue to queue (`proofs/Going`), since each queue is emptied
//! (`law_live_carries`); a switch that doesn't pass it on (`proofs/Switching`), and a receiver to whom the frame isn't whole
//! (`proofs/Taking`), enter its mark into the ledger. `specs/Shapes` has why default channels lead there. There is no code that runs.
#![tactic(auto)]

mod channels;
mod frames;

pub use channels::channels_lead_by_default;
pub use frames::frames_are_heard;
