//! What holds of all flows, as functions that do nothing: each contract is a law of the definitions.

ghost use Rattle.std.specs.Prelude.{◌≡◌, ◌-◌, ◌<◌, List, ℕ, Some};
ghost use Rattle.ipv4_packet.specs.Packet.{IsPacket, ttl_of, with_ttl, canonical};
ghost use Rattle.ipv4_packet.specs.declared.flow.FlowId.{FlowId};
ghost use Rattle.ipv4_packet.specs.declared.flow.FlowKind.{FlowKind};
ghost use Rattle.ipv4_packet.specs.Flow.{flow_of, next_hop_of};

/// A router's packets keep their flow: the packet that goes on is of the flow one hop further.
pub fn flow_keeps_over_a_hop()
    ensures { (kind : FlowKind) (packet : List ℕ) (flow : FlowId) → IsPacket packet → 1 < ttl_of packet → flow_of kind packet ≡ Some flow → next_hop_of flow ≡ flow_of kind (canonical (with_ttl packet (ttl_of packet - 1))) }
{}
