//! The flow of a packet, after the flow types of RFC 1953 and RFC 1954.

ghost use Rattle.std.specs.Prelude.{◌≡◌, ◌↔◌, IsTrue, Some};
ghost use Rattle.ipv4_packet.specs.Packet.{IsPacket};
ghost use Rattle.ipv4_packet.specs.Flow.{kind_of, flow_ttl, at_ttl as with_ttl, flow_of, has_ports as shows, next_hop_of};

use crate::{destination, fragment, protocol, source, tos, ttl};
use net_types::Addr;
use octet_fields::u16_at;

/// A flow type (RFC 1953, Flow Type): by which fields of a packet a flow is told apart.
#[derive(Clone, Copy, Debug, PartialEq, Eq, Hash)]
pub enum FlowKind {
    /// The ends of a TCP or UDP connection: flow type 1.
    One,
    /// The two hosts: flow type 2.
    Two,
}

/// A flow identifier (RFC 1953, Flow Identifier; RFC 1954): the fields that the packets of one flow
/// share on one link. Its layout in octets is this project's own.
#[derive(Clone, Copy, Debug, PartialEq, Eq, Hash)]
pub enum FlowId {
    /// Between two ports of two hosts.
    One {
        /// Type of Service.
        tos: u8,
        /// Time To Live, in hops.
        ttl: u8,
        /// Protocol: 6 for TCP, 17 for UDP.
        protocol: u8,
        /// Source Address.
        source: Addr,
        /// Destination Address.
        destination: Addr,
        /// Source port.
        source_port: u16,
        /// Destination port.
        destination_port: u16,
    },
    /// Between two hosts.
    Two {
        /// Time To Live, in hops.
        ttl: u8,
        /// Source Address.
        source: Addr,
        /// Destination Address.
        destination: Addr,
    },
}

impl FlowId {
    /// The kind that this flow is of.
    pub fn kind(&self) -> FlowKind
        ensures { result ≡ kind_of self.now }
    {
        match *self {
            FlowId::One { .. } => FlowKind::One,
            FlowId::Two { .. } => FlowKind::Two,
        }
    }

    /// The Time To Live of its packets, in hops.
    pub fn ttl(&self) -> u8
        ensures { result ≡ flow_ttl self.now }
    {
        match *self {
            FlowId::One { ttl, .. } => ttl,
            FlowId::Two { ttl, .. } => ttl,
        }
    }

    /// The same flow where its packets have this Time To Live.
    fn at_ttl(&self, ttl: u8) -> FlowId
        ensures { result ≡ with_ttl self.now ttl }
    {
        let mut flow = *self;
        match &mut flow {
            FlowId::One { ttl: hops, .. } => *hops = ttl,
            FlowId::Two { ttl: hops, .. } => *hops = ttl,
        }
        flow
    }
}

/// The packet's flow of this kind: none where its Time To Live is 0, or where the kind is `One` and
/// its ports aren't there to read (another protocol than TCP and UDP, a later fragment, or fewer
/// than 24 octets).
pub fn of_packet(kind: FlowKind, packet: &[u8]) -> Option<FlowId>
    requires { IsPacket packet.now }
    ensures { result ≡ flow_of kind packet.now }
{
    match kind {
        FlowKind::One => connection_of(packet),
        FlowKind::Two => hosts_of(packet),
    }
}

/// Whether the packet is of this flow.
pub fn matches(flow: &FlowId, packet: &[u8]) -> bool
    requires { IsPacket packet.now }
    ensures { IsTrue result ↔ (flow_of (kind_of flow.now) packet.now ≡ Some flow.now) }
{
    of_packet(flow.kind(), packet) == Some(*flow)
}

/// The flow one hop further: none where its Time To Live is at most 1.
pub fn next_hop(flow: &FlowId) -> Option<FlowId>
    ensures { result ≡ next_hop_of flow.now }
{
    let ttl = flow.ttl();
    if ttl <= 1 {
        return None;
    }
    Some(flow.at_ttl(ttl - 1))
}

/// Whether the protocol begins with two ports: TCP (RFC 793 3.1) and UDP (RFC 768).
pub(crate) fn has_ports(protocol: u8) -> bool
    ensures { result ≡ shows protocol }
{
    protocol == 6 || protocol == 17
}

/// The packet's flow of type 1.
fn connection_of(packet: &[u8]) -> Option<FlowId>
    requires { IsPacket packet.now }
    ensures { result ≡ flow_of FlowKind.One packet.now }
{
    let first_fragment = fragment(packet) % 8192 == 0;
    if ttl(packet) == 0 || !has_ports(protocol(packet)) || !first_fragment || packet.len() < 24 {
        return None;
    }
    Some(FlowId::One {
        tos: tos(packet),
        ttl: ttl(packet),
        protocol: protocol(packet),
        source: source(packet),
        destination: destination(packet),
        source_port: u16_at(packet, 20),
        destination_port: u16_at(packet, 22),
    })
}

/// The packet's flow of type 2.
fn hosts_of(packet: &[u8]) -> Option<FlowId>
    requires { IsPacket packet.now }
    ensures { result ≡ flow_of FlowKind.Two packet.now }
{
    if ttl(packet) == 0 {
        return None;
    }
    Some(FlowId::Two {
        ttl: ttl(packet),
        source: source(packet),
        destination: destination(packet),
    })
}
