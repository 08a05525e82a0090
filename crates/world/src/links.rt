//! The links of the network.

ghost use Rattle.std.specs.Prelude.{◌≡◌, ◌≤◌};
ghost use Rattle.world_model.specs.Topology.{Topology as Described, peer_of};
ghost use Rattle.world.specs.Network.{IsNodeIn};
ghost use Rattle.world.specs.Running.{Runs};

use crate::world::World;
use net_types::{NodeId, PortNo};
use node_controller::NodeController;
use world_model::LinkEnd;

impl<C: NodeController> World<C> {
    /// The other end of the link at a port, 1 to 8, of a node. None exactly where no link is there.
    pub fn far_end(&self, node: NodeId, port: PortNo) -> Option<LinkEnd>
        requires node { IsNodeIn self.now node }
        requires port { (1 ≤ port.0) × (port.0 ≤ 8) }
        ensures { (topology : Described) → Runs C.seen topology self.now → result ≡ peer_of topology node port }
    {
        self.sites[node.0 as usize - 1].peers[port.0 as usize]
    }
}
