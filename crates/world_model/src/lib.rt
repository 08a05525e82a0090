//! What is to hold of a network of IP switches, and the words in which the laws of its runs are said: the
//! fates of packets by routing alone, who uses a label, the causes of losses, the headline. Definitions
//! alone, in `specs/`. It passes on those of a switch, of a controller and of the network, which stand in
//! `switch_model`, `controller_model` and `network_model`.
#![tactic(auto)]

pub use network_model::{
    Asked, Event, EventRefusal, Failure, LinkEnd, PortRange, PortState, Request, TopologyLine,
    TopologyRefusal,
};
