//! Reading and writing big-endian integers of 16 and 32 bits among octets, the first octet highest
//! (RFC 791, appendix B), and copies of octets from an index on.
#![tactic(auto)]

ghost use Rattle.std.specs.Prelude.{◌≡◌, ◌+◌, ◌≤◌, length};
ghost use Rattle.std.specs.Int.{w16, w32, to_be_bytes};
ghost use Rattle.octet_fields.specs.Fields.{u16_at as number16, u32_at as number32, written};

use byteorder::{BigEndian, ByteOrder};

/// The number of the two octets from `place` on.
pub fn u16_at(octets: &[u8], place: usize) -> u16
    requires { place + 2 ≤ length octets.now }
    ensures { result ≡ number16 octets.now place }
{
    let field = &octets[place..place + 2];
    u16::from_be_bytes([field[0], field[1]])
}

/// The number of the four octets from `place` on.
pub fn u32_at(octets: &[u8], place: usize) -> u32
    requires { place + 4 ≤ length octets.now }
    ensures { result ≡ number32 octets.now place }
{
    let field = &octets[place..place + 4];
    u32::from_be_bytes([field[0], field[1], field[2], field[3]])
}

/// Writes the number over the two octets from `place` on.
pub fn put_u16(octets: &mut [u8], place: usize, number: u16)
    requires { place + 2 ≤ length octets.old }
    ensures { octets.new ≡ written octets.old place (to_be_bytes w16 number) }
{
    BigEndian::write_u16(&mut octets[place..place + 2], number);
}

/// Writes the number over the four octets from `place` on.
pub fn put_u32(octets: &mut [u8], place: usize, number: u32)
    requires { place + 4 ≤ length octets.old }
    ensures { octets.new ≡ written octets.old place (to_be_bytes w32 number) }
{
    BigEndian::write_u32(&mut octets[place..place + 4], number);
}

/// Copies `field` over the octets from `place` on.
pub fn put_octets(octets: &mut [u8], place: usize, field: &[u8])
    requires { place + length field.now ≤ length octets.old }
    ensures { octets.new ≡ written octets.old place field.now }
{
    octets[place..place + field.len()].copy_from_slice(field);
}
