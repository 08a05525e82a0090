//! The writes of a router: a Time To Live, a checksum, and the packet of a control message.

ghost use Rattle.std.specs.Prelude.{◌≡◌, ◌+◌, ◌≤◌, ◌++◌, length, drop, take};
ghost use Rattle.ipv4_packet.specs.Packet.{IsPacket, with_ttl, canonical, ifmp_header, ifmp_packet_of};

use crate::checksum::internet_sum;
use net_types::Addr;
use octet_fields::{put_u16, put_u32};

/// The Protocol of IFMP messages (RFC 1953).
pub const IFMP_PROTOCOL: u8 = 101;

/// Writes the canonical header checksum.
pub fn write_checksum(packet: &mut [u8])
    requires { 20 ≤ length packet.old }
    ensures { packet.new ≡ canonical packet.old }
{
    put_u16(packet, 10, 0);
    let sum = internet_sum(&packet[..20]);
    put_u16(packet, 10, 0xffff - sum);
}

/// Writes the Time To Live, in hops, and the canonical header checksum.
pub fn set_ttl(packet: &mut [u8], ttl: u8)
    requires { IsPacket packet.old }
    ensures written { packet.new ≡ canonical (with_ttl packet.old ttl) }
    ensures packet { IsPacket packet.new }
{
    packet[8] = ttl;
    write_checksum(packet);
}

/// Writes the packet of an IFMP message at the beginning of `out` and gives its length in octets,
/// 20 more than the message's: protocol 101, from `source` to 255.255.255.255, Time To Live 1,
/// Type of Service, Identification, Flags and Fragment Offset 0.
pub fn ifmp_packet(source: Addr, message: &[u8], out: &mut [u8]) -> usize
    requires message { length message.now ≤ 40 }
    requires room { 20 + length message.now ≤ length out.old }
    ensures written { out.new ≡ ifmp_packet_of source message.now ++ drop result out.old }
    ensures len { result ≡ 20 + length message.now }
    ensures packet { IsPacket (take result out.new) }
{
    let length = 20 + message.len();
    write_ifmp_header(source, message.len() as u16, out);
    out[20..length].copy_from_slice(message);
    write_checksum(&mut out[..length]);
    length
}

/// Writes the header for a message of `size` octets, its checksum field zero.
fn write_ifmp_header(source: Addr, size: u16, out: &mut [u8])
    requires room { 20 ≤ length out.old }
    requires small { size ≤ 40 }
    ensures { out.new ≡ ifmp_header source size ++ drop 20 out.old }
{
    out[..12].copy_from_slice(&[0x45, 0, 0, 0, 0, 0, 0, 0, 1, IFMP_PROTOCOL, 0, 0]);
    put_u16(out, 2, 20 + size);
    put_u32(out, 12, source.0);
    put_u32(out, 16, 0xffff_ffff);
}
