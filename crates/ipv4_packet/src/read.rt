//! The fields of a packet.

ghost use Rattle.std.specs.Prelude.{◌≡◌};
ghost use Rattle.ipv4_packet.specs.Packet.{IsPacket, tos_of, total_length_of, identification_of, fragment_of, ttl_of, protocol_of, source_of, destination_of};

use net_types::Addr;
use octet_fields::{u16_at, u32_at};

/// Type of Service (octet 1).
pub fn tos(packet: &[u8]) -> u8
    requires { IsPacket packet.now }
    ensures { result ≡ tos_of packet.now }
{
    packet[1]
}

/// Total Length, in octets (octets 2 to 3).
pub fn total_length(packet: &[u8]) -> u16
    requires { IsPacket packet.now }
    ensures { result ≡ total_length_of packet.now }
{
    u16_at(packet, 2)
}

/// Identification (octets 4 to 5).
pub fn identification(packet: &[u8]) -> u16
    requires { IsPacket packet.now }
    ensures { result ≡ identification_of packet.now }
{
    u16_at(packet, 4)
}

/// Flags in the highest 3 bits, Fragment Offset in units of 8 octets in the others (octets 6 to 7).
pub fn fragment(packet: &[u8]) -> u16
    requires { IsPacket packet.now }
    ensures { result ≡ fragment_of packet.now }
{
    u16_at(packet, 6)
}

/// Time To Live, in hops (octet 8).
pub fn ttl(packet: &[u8]) -> u8
    requires { IsPacket packet.now }
    ensures { result ≡ ttl_of packet.now }
{
    packet[8]
}

/// Protocol (octet 9).
pub fn protocol(packet: &[u8]) -> u8
    requires { IsPacket packet.now }
    ensures { result ≡ protocol_of packet.now }
{
    packet[9]
}

/// Source Address (octets 12 to 15).
pub fn source(packet: &[u8]) -> Addr
    requires { IsPacket packet.now }
    ensures { result ≡ source_of packet.now }
{
    Addr(u32_at(packet, 12))
}

/// Destination Address (octets 16 to 19).
pub fn destination(packet: &[u8]) -> Addr
    requires { IsPacket packet.now }
    ensures { result ≡ destination_of packet.now }
{
    Addr(u32_at(packet, 16))
}
