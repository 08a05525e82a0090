//! Segmentation and reassembly of frames (I.363.5), as definitions: how a channel makes frames of
//! the cells that it takes, the test that ends a frame, the entries of the loss ledger that come of
//! it, and the sending of frames. The definitions stand in `specs/`; the code is what all who take
//! or send cells share.
#![tactic(auto)]

mod cut;
mod frame;
mod send;

pub use cut::note_cut_chain;
pub use frame::{note_broken, test_frame};
pub use send::{Queues, send_frame};
