//! GSMP messages as octets, both ways (RFC 1987). [`decode`] is the exact inverse of [`encode`] on
//! the messages in range, and each refusal comes exactly where its test is the first to fail.
#![tactic(auto)]

mod check;
mod failure;
mod fault;
mod fields;
mod laws;
mod message;
mod outcome;
mod read;
mod request;
mod rows;
mod write;

pub use failure::Failure;
pub use fault::Fault;
pub use laws::octets_have_one_message;
pub use message::{BRING_UP, BranchKind, Connection, Head, MAX_MESSAGE, Message, TAKE_DOWN};
pub use outcome::{FAILURE, Outcome, REQUEST, SUCCESS};
pub use read::decode;
pub use request::Request;
pub use rows::{MOST_ROWS, PortRow, PortRows};
pub use write::encode;
