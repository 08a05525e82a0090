//! The ATM cell at the user-network interface (ITU-T I.361 2.2), with its header error control
//! (I.432.1 4.3.2).
#![tactic(auto)]

mod cell;
mod codec;
mod fault;
mod hec;
mod polynomial;

pub use cell::{BLANK_CELL, Cell, Header};
pub use codec::{decode, encode};
pub use fault::CellFault;
pub use polynomial::remainder_law;
