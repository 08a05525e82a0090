//! Why octets are no message.

use thiserror::Error;

/// An error of `decode`: the first test that octets fail which aren't a GSMP message, in the order
/// of the tests, which are this project's own.
#[derive(Clone, Copy, Debug, PartialEq, Eq, Error)]
pub enum Fault {
    /// Under 12 octets.
    #[error("under 12 octets")]
    Short,
    /// The first eight octets aren't the LLC/SNAP header of GSMP.
    #[error("the LLC/SNAP header isn't that of GSMP")]
    Snap,
    /// The version isn't 1.
    #[error("the version isn't 1")]
    Version,
    /// No message has this type.
    #[error("no message has this type")]
    MessageType,
    /// An adjacency message whose result isn't 0, or another whose result is neither a request's
    /// nor an answer's.
    #[error("the result isn't one of the message type")]
    Result,
    /// The code isn't one that goes with type and result.
    #[error("the code isn't one of message type and result")]
    Code,
    /// The length isn't the message's.
    #[error("the length isn't the message's")]
    Size,
    /// A field that is to be 0 isn't, or a field has none of its values.
    #[error("a field isn't 0, or has none of its values")]
    Reserved,
}
