//! The messages as values.

ghost use Rattle.std.specs.Prelude.{◌≡◌};
ghost use Rattle.ifmp_wire.specs.Message.{names_of};

use ipv4_packet::FlowId;
use net_types::{Channel, Hello, Instance};

/// An IFMP message (RFC 1953): one of the adjacency protocol, or one of the redirection protocol.
/// Op codes and layout are this project's own.
#[derive(Clone, Copy, Debug, PartialEq, Eq)]
pub enum Message {
    /// Sets an adjacency up, or keeps it.
    Adjacency(Hello),
    /// Asks the upstream end to send a flow under a label.
    Redirect {
        /// The sender's instance.
        sender: Instance,
        /// The receiver's instance.
        peer: Instance,
        /// The sequence number of the sender's redirection messages.
        number: u32,
        /// How long the flow may use the label, in ticks; never 0.
        lifetime: u16,
        /// The label.
        label: Channel,
        /// The flow.
        flow: FlowId,
    },
    /// Asks for a label back.
    Reclaim {
        /// The sender's instance.
        sender: Instance,
        /// The receiver's instance.
        peer: Instance,
        /// The sequence number of the sender's redirection messages.
        number: u32,
        /// The label.
        label: Channel,
        /// The flow that used it.
        flow: FlowId,
    },
    /// Gives a label back.
    ReclaimAck {
        /// The sender's instance.
        sender: Instance,
        /// The receiver's instance.
        peer: Instance,
        /// The sequence number of the sender's redirection messages.
        number: u32,
        /// The label.
        label: Channel,
        /// The flow that used it.
        flow: FlowId,
    },
    /// Says which labels the sender can send under.
    LabelRange {
        /// The sender's instance.
        sender: Instance,
        /// The receiver's instance.
        peer: Instance,
        /// The sequence number of the sender's redirection messages.
        number: u32,
        /// The least label.
        least: Channel,
        /// The greatest label, not below the least.
        greatest: Channel,
    },
    /// Refuses a redirection.
    Error {
        /// The sender's instance.
        sender: Instance,
        /// The receiver's instance.
        peer: Instance,
        /// The sequence number of the sender's redirection messages.
        number: u32,
        /// 1 Taken, 2 Leaving, 3 Full, 4 Mismatch.
        code: u8,
        /// The label that was asked for.
        label: Channel,
    },
}

/// The Sender Instance, the Peer Instance and the Peer Identity or Sequence Number that every message
/// begins with, behind version, op code and checksum (RFC 1953).
#[derive(Clone, Copy, Debug, PartialEq, Eq)]
pub struct Names {
    /// The sender's instance.
    pub sender: Instance,
    /// The receiver's instance.
    pub peer: Instance,
    /// The Peer Identity of an adjacency message, the Sequence Number of the others.
    pub number: u32,
}

impl Message {
    /// What it begins with: octets 4 to 15.
    pub fn names(&self) -> Names
        ensures { result ≡ names_of self.now }
    {
        match *self {
            Message::Adjacency(hello) => Names {
                sender: hello.sender,
                peer: hello.peer,
                number: hello.identity.0,
            },
            Message::Redirect {
                sender,
                peer,
                number,
                ..
            }
            | Message::Reclaim {
                sender,
                peer,
                number,
                ..
            }
            | Message::ReclaimAck {
                sender,
                peer,
                number,
                ..
            }
            | Message::LabelRange {
                sender,
                peer,
                number,
                ..
            }
            | Message::Error {
                sender,
                peer,
                number,
                ..
            } => Names {
                sender,
                peer,
                number,
            },
        }
    }
}
