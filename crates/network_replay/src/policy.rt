//! The policy of a replay.

use topology::Topology;
use world::NodeController;

/// A selector of the flow classifier of a network's nodes (the choice of their policy), once its
/// topology is known.
pub trait PolicyChoice<C: NodeController> {
    ghost use Rattle.std.specs.Prelude.{◌≡◌};
    ghost use Rattle.port_model.specs.Setup.{Policy};
    ghost use Rattle.script_model.specs.world_model.Topology.{Topology as Described};

    // What a policy that is chosen for a topology does.
    ghost chosen: { Self → Described → Policy };

    /// The policy for this topology.
    fn choose(&self, topology: &Topology) -> C::Policy
        ensures { C.meaning result ≡ chosen self.now topology.now };
}
