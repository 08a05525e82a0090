//! What the sides of an adjacency tell one another, for parties of any kind.

use net_types::HelloKind;

/// A received adjacency protocol message: its type and both parties, as it names them (RFC 1987,
/// Adjacency Protocol).
#[derive(Clone, Copy, Debug, PartialEq, Eq)]
pub struct Heard<P> {
    /// Which of the four.
    pub kind: HelloKind,
    /// The party that sent it.
    pub sender: P,
    /// The party that it is for, as the sender knows it.
    pub receiver: P,
}

/// A sent adjacency protocol message: its type and the parties that it names (RFC 1987, Adjacency
/// Protocol).
#[derive(Clone, Copy, Debug, PartialEq, Eq)]
pub struct Said<P> {
    /// Which of the four.
    pub kind: HelloKind,
    /// The party that sends it.
    pub sender: P,
    /// The party that it is for; none in a SYN, whose sender knows none.
    pub receiver: Option<P>,
}

/// The action of an adjacency protocol state machine (an answer): what a side does at a message or
/// a tick, with messages `M`, and `K` for what it hands out on entering Estab. This project's own.
#[derive(Clone, Copy, Debug, PartialEq, Eq)]
pub enum Answer<M, K> {
    /// Nothing.
    Quiet,
    /// A message is sent.
    Send(M),
    /// Estab is entered.
    Open {
        /// The message that is sent, if one is.
        send: Option<M>,
        /// Stands for the side that entered.
        key: K,
    },
    /// The adjacency is over: the side stays as it is until it is given a new instance.
    Reset,
}
