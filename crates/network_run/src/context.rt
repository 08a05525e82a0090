//! Where an event stands.

use topology::Topology;

/// The source position of an event: the line of the script that it comes of, counted from 1, and
/// the topology, for names.
#[derive(Clone, Copy)]
pub struct Context<'a> {
    /// The topology.
    pub names: &'a Topology,
    /// The number of the line.
    pub line: u32,
}
