//! Queues, and the channels of them.

ghost use Rattle.std.specs.Prelude.{◌≡◌};
ghost use Rattle.frame_packets.specs.Taps.{key_of, queue_of};

use net_types::{Channel, NodeId, Place};
use telling_model::Standing;

/// The identifier of a captured interface: an output queue, by its node and by its number there.
/// This project's own.
#[derive(Clone, Copy, Debug, PartialEq, Eq, Hash)]
pub struct Queue {
    /// The node.
    pub node: NodeId,
    /// 0 from its controller to its switch, 1 back, and one more than its number of a port.
    pub number: u16,
}

/// The identifier of a capture's reassembly buffer: a virtual channel of an output queue. This
/// project's own.
#[derive(Clone, Copy, Debug, PartialEq, Eq, Hash)]
pub struct TapKey {
    /// The queue.
    pub queue: Queue,
    /// The channel.
    pub channel: Channel,
}

impl Queue {
    /// The queue of this name.
    pub fn of(place: Place) -> Queue
        ensures { result ≡ queue_of place }
    {
        match place {
            Place::Down(node) => Queue { node, number: 0 },
            Place::Up(node) => Queue { node, number: 1 },
            Place::Out(node, port) => Queue {
                node,
                number: u16::from(port.0) + 1,
            },
        }
    }
}

impl TapKey {
    /// The queue and the channel of a cell.
    pub fn of(standing: &Standing) -> TapKey
        ensures { result ≡ key_of standing.now }
    {
        TapKey {
            queue: Queue::of(standing.place),
            channel: standing.cell.header.channel,
        }
    }
}
