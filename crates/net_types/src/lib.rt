//! Addresses and prefixes, port numbers, virtual channels, instance numbers and adjacency protocol
//! messages of an IP switch, with the numbers of nodes and the marks of frames: the values that
//! every other crate speaks in.
#![tactic(auto)]

mod adjacency;
mod channel;
mod label;
mod memory;
mod node;
mod number;
mod octets;
mod prefix;

pub use adjacency::{Greeting, Hello, HelloKind, Party, Peer};
pub use channel::{Channel, DEFAULT_CHANNEL, End, VPIS_PER_PORT, on_control};
pub use label::{
    GREATEST_LABEL_VCI, LABEL_VPIS, LEAST_LABEL_VCI, MOST_LABELS, is_label, is_label_number,
    is_label_vci, label_channel, label_number, labels_are_numbered, numbered_channel,
};
pub use memory::OutOfMemory;
pub use node::{CONTROL_PORT, LAST_PORT, LINK_PORTS, NodeId, PORTS, Place, PortNo};
pub use number::{Instance, Mark, Numbers};
pub use octets::Octets;
pub use prefix::{Addr, Prefix, PrefixFault};
