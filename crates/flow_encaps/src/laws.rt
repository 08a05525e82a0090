//! What holds of all labelled frames, as functions that do nothing: each contract is a law of the
//! definitions.

ghost use Rattle.std.specs.Prelude.{◌≡◌, ℕ, ◌-◌, List, Some};
ghost use Rattle.ipv4_packet.specs.Packet.{with_ttl, canonical};
ghost use Rattle.ipv4_packet.specs.declared.flow.FlowId.{FlowId};
ghost use Rattle.ipv4_packet.specs.Flow.{flow_ttl, next_hop_of};
ghost use Rattle.flow_encaps.specs.Labelled.{Carries};

/// A packet has one payload under the label of a flow.
pub fn flow_and_packet_have_one_payload()
    ensures { (flow : FlowId) (packet first second : List ℕ) → Carries flow packet first → Carries flow packet second → first ≡ second }
{}

/// A payload is at most one packet under the label of a flow.
pub fn flow_and_payload_have_one_packet()
    ensures { (flow : FlowId) (first second payload : List ℕ) → Carries flow first payload → Carries flow second payload → first ≡ second }
{}

/// The payload stays the same while flow and packet lose a hop together.
pub fn a_hop_keeps_the_payload()
    ensures { (flow next : FlowId) (packet payload : List ℕ) → Carries flow packet payload → next_hop_of flow ≡ Some next → Carries next (canonical (with_ttl packet (flow_ttl flow - 1))) payload }
{}
