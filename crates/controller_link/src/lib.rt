//! The controller's end of the control link (RFC 1987): the cells that it keeps in its region of
//! slots, those that wait for its switch, and those of each channel since its last end. What a
//! channel makes of its cells is defined in `frame_model`.
#![tactic(auto)]

mod layout;
mod link;
mod store;
mod taker;

pub use link::ControlLink;
pub use taker::Taker;
