//! Why a line can't be added to a topology.

ghost use Rattle.std.specs.Prelude.{◌≡◌};
ghost use Rattle.topology.specs.declared.fault.TopologyFault.TheVariants.{OutOfMemory as NoMemory};

use net_types::OutOfMemory;
use world_model::TopologyRefusal;

/// An error of [`Topology::line`](crate::Topology::line): why it adds nothing.
#[derive(Clone, Copy, Debug, PartialEq, Eq)]
pub enum TopologyFault {
    /// The line can't mean what it says.
    Refused(TopologyRefusal),
    /// The line isn't refused, but no memory was left for what it says.
    OutOfMemory(OutOfMemory),
}

impl From<OutOfMemory> for TopologyFault {
    ghost from_gives = { λ error fault. fault ≡ NoMemory error };

    fn from(error: OutOfMemory) -> TopologyFault {
        TopologyFault::OutOfMemory(error)
    }
}
