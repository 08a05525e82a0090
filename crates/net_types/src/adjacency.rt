//! What the two ends of an adjacency say to one another, as plain data (RFC 1953, RFC 1987).

use crate::number::Instance;
use crate::prefix::Addr;

/// The message type of an adjacency protocol message: SYN, SYNACK, RSTACK or ACK, an op code of
/// IFMP and a Code of GSMP (RFC 1953, IFMP Adjacency Protocol; RFC 1987, Adjacency Protocol).
#[derive(Clone, Copy, Debug, PartialEq, Eq)]
pub enum HelloKind {
    /// Offers a first instance.
    Syn,
    /// Answers an offer with both instances.
    Synack,
    /// Takes an adjacency back that its receiver doesn't know.
    Rstack,
    /// Confirms both instances.
    Ack,
}

/// An IFMP adjacency protocol message (a hello): its type, the sender's instance, and what the
/// sender knows and expects of its peer (RFC 1953, IFMP Adjacency Protocol).
#[derive(Clone, Copy, Debug, PartialEq, Eq)]
pub struct Hello {
    /// Which of the four.
    pub kind: HelloKind,
    /// The sender's instance.
    pub sender: Instance,
    /// The instance that the sender knows of its peer; 0 where it knows none.
    pub peer: Instance,
    /// The address that the sender knows of its peer; 0 where it knows none.
    pub identity: Addr,
    /// The sequence number that the sender expects next of its peer.
    pub next: u32,
}

/// An IFMP peer (a party): the router at one end of a link, by its instance and its IPv4 address
/// (RFC 1953, Peer Instance and Peer Identity).
#[derive(Clone, Copy, Debug, PartialEq, Eq)]
pub struct Peer {
    /// The instance of its adjacency.
    pub instance: Instance,
    /// Its IPv4 address: the source of its IFMP packets.
    pub address: Addr,
}

/// The sender or the receiver of a GSMP adjacency protocol message (a party): a controller or a
/// switch, by its name, its port and its instance (RFC 1987, Adjacency Protocol).
#[derive(Clone, Copy, Debug, PartialEq, Eq)]
pub struct Party {
    /// Its name, as an Ethernet address.
    pub name: [u8; 6],
    /// Its port.
    pub port: u32,
    /// Its instance.
    pub instance: Instance,
}

/// A GSMP adjacency protocol message (a greeting): its type, the party that sends it, and the party
/// that it is for (RFC 1987, Adjacency Protocol).
#[derive(Clone, Copy, Debug, PartialEq, Eq)]
pub struct Greeting {
    /// Which of the four.
    pub kind: HelloKind,
    /// The party that sends it.
    pub sender: Party,
    /// The party that it is for, as the sender knows it.
    pub receiver: Party,
}
