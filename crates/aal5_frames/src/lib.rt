//! AAL type 5 (ITU-T I.363.5 9): a payload is segmented into the cells of a CPCS-PDU, and the octets
//! of a chain of cells are checked to be one.
//!
//! | Octets | Content |
//! |---|---|
//! | payload | 1 to 1528 |
//! | pad | 0 to 47, so that the whole is a multiple of 48; 0 on sending, unread on receiving |
//! | UU | 1; 0 on sending, unread on receiving |
//! | CPI | 1; 0 |
//! | Length | 2; the payload's, in octets |
//! | CRC | 4; CRC-32 of all octets before it |
#![tactic(auto)]

mod check;
mod crc;
mod segmentation;

pub use check::{FrameFault, check_pdu};
pub use segmentation::{FEW_CELLS, GREATEST_PAYLOAD, MAX_FRAME, MOST_CELLS, cells_of, segment};
