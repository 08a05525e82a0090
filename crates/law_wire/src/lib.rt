//! Round-trip theorems of the wire formats: what a neighbour reads is what was said. A message of IFMP (RFC 1953) or of
//! GSMP (RFC 1987) in range is read back from its octets, and a message of IFMP comes out of its packet and the packet
//! out of its frame's payload as they went in. There is no code that runs.
#![tactic(auto)]

ghost use Rattle.std.specs.Prelude.{◌≡◌, ℕ, ◌<◌, ◌^◌, List, drop, Ok};
ghost use Rattle.net_types.specs.declared.prefix.Addr.{Addr};
ghost use Rattle.ipv4_packet.specs.Packet.{ifmp_packet_of, protocol_of, source_of};
ghost use Rattle.flow_encaps.specs.Default.{default_payload};
ghost use Rattle.flow_encaps.specs.Unwrapped.{default_unwrapped};
ghost use Rattle.ifmp_wire.specs.declared.message.Message as ifmp;
ghost use Rattle.ifmp_wire.specs.Message.{InRange, FitsMessage, octets_of as ifmp_octets};
ghost use Rattle.ifmp_wire.specs.Fields.{decoded as ifmp_decoded};
ghost use Rattle.gsmp_wire.specs.declared.message.Message as gsmp;
ghost use Rattle.gsmp_wire.specs.Range.{IsInRange};
ghost use Rattle.gsmp_wire.specs.Layout.{octets_of as gsmp_octets};
ghost use Rattle.gsmp_wire.specs.Fields.{decoded as gsmp_decoded};

/// What a neighbour reads is what was said. It does nothing, and its contract is the statement.
pub fn messages_are_read_back()
    ensures ifmp { (message : ifmp.Message) → InRange message → FitsMessage message → ifmp_decoded (ifmp_octets message) ≡ Ok message }
    ensures gsmp { (message : gsmp.Message) → IsInRange message → gsmp_decoded (gsmp_octets message) ≡ Ok message }
    ensures protocol { (source : Addr) (message : List ℕ) → protocol_of (ifmp_packet_of source message) ≡ 101 }
    ensures source { (source : Addr) (message : List ℕ) → source.0 < 2 ^ 32 → source_of (ifmp_packet_of source message) ≡ source }
    ensures message { (source : Addr) (message : List ℕ) → drop 20 (ifmp_packet_of source message) ≡ message }
    ensures payload { (packet : List ℕ) → default_unwrapped (default_payload packet) ≡ Ok packet }
{}
