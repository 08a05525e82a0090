//! Which octets are a packet.

ghost use Rattle.std.specs.Prelude.{◌≡◌, ◌↔◌, IsOk};
ghost use Rattle.std.specs.Result.{result_err};
ghost use Rattle.ipv4_packet.specs.Packet.{IsPacket, first_fault};

use crate::checksum::internet_sum;
use octet_fields::u16_at;
use thiserror::Error;

/// The greatest packet, in octets: the MTU of a link (RFC 1954).
pub const MAX_PACKET: usize = 1500;

/// An IPv4 header validation error (RFC 1812 5.2.2): the first test that octets fail which aren't a
/// packet that a router takes. That options and more than 1500 octets are refused is this project's
/// own.
#[derive(Clone, Copy, Debug, PartialEq, Eq, Error)]
pub enum PacketFault {
    /// Under 20 octets.
    #[error("under 20 octets")]
    Short,
    /// The version isn't 4.
    #[error("the version isn't 4")]
    Version,
    /// The header isn't 5 words of 4 octets, so it has options.
    #[error("the header has options")]
    Options,
    /// Total Length isn't the number of octets.
    #[error("Total Length isn't the number of octets")]
    Length,
    /// Over 1500 octets.
    #[error("over 1500 octets")]
    TooLong,
    /// The words of the header don't sum to FFFF.
    #[error("the header checksum isn't right")]
    Checksum,
}

/// Whether `octets` are a packet (RFC 791 3.1). Refuses, by the first test that fails: `Short`,
/// `Version`, `Options`, `Length`, `TooLong`, `Checksum`.
pub fn check(octets: &[u8]) -> Result<(), PacketFault>
    ensures ok { IsOk result ↔ IsPacket octets.now }
    ensures fault { result_err result ≡ first_fault octets.now }
{
    if octets.len() < 20 {
        return Err(PacketFault::Short);
    }
    if octets[0] / 16 != 4 {
        return Err(PacketFault::Version);
    }
    if octets[0] % 16 != 5 {
        return Err(PacketFault::Options);
    }
    if u16_at(octets, 2) as usize != octets.len() {
        return Err(PacketFault::Length);
    }
    if octets.len() > MAX_PACKET {
        return Err(PacketFault::TooLong);
    }
    if internet_sum(&octets[..20]) != 0xffff {
        return Err(PacketFault::Checksum);
    }
    Ok(())
}
