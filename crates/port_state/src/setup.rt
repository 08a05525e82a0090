//! What stays the same of a port.

use net_types::{Addr, NodeId, PortNo};
use port_model::Timers;

/// The configuration of a router's interface (a port of a controller; RFC 1953): what it is given as
/// it is opened, and keeps.
#[derive(Drop)]
pub struct PortSetup<P> {
    /// The node that the port is of.
    pub node: NodeId,
    /// Its number, 1 to 8.
    pub port: PortNo,
    /// The address of its node.
    pub address: Addr,
    /// The least label that the port hands out and takes, by its number, 32 to 1,023.
    pub least: u16,
    /// The greatest of these labels, 32 to 1,023, not below the least.
    pub greatest: u16,
    /// Its times, in ticks.
    pub timers: Timers,
    /// Which flows are offered a label, and which keep it.
    pub policy: P,
}
