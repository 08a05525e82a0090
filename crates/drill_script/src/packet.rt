//! The packets of a drill: UDP (RFC 768) with data octets that are all 0.

ghost use Rattle.std.specs.Prelude.{◌≡◌, ◌≤◌, ◌++◌, length, drop, OnOk};
ghost use Rattle.lab_text.specs.Text.{hex_digits};
ghost use Rattle.drill_script.specs.Packets.{headers};
ghost use Rattle.drill_script.specs.Places.{sent_packet};

use ipv4_packet::write_checksum;
use lab_text::Text;
use net_types::OutOfMemory;
use octet_fields::put_u16;

/// Writes the headers of a packet from 10.0.1.1 to the last of so many nodes, with `size` octets of
/// data, over the first 28 octets.
fn write_headers(octets: &mut [u8], nodes: u8, identification: u16, source_port: u16, size: u16)
    requires room { 28 ≤ length octets.old }
    requires small { size ≤ 63 }
    ensures { octets.new ≡ headers nodes identification source_port size ++ drop 28 octets.old }
{
    octets[..28].copy_from_slice(&[
        0x45, 0, 0, 0, 0, 0, 0, 0, 32, 17, 0, 0, 10, 0, 1, 1, 10, 0, nodes, 1, 0, 0, 0, 9, 0, 0, 0,
        0,
    ]);
    put_u16(octets, 2, 28 + size);
    put_u16(octets, 4, identification);
    put_u16(octets, 20, source_port);
    put_u16(octets, 24, 8 + size);
}

/// Appends the packet with this number in hexadecimal, for which a number was drawn.
pub fn write_packet(line: &mut Text, nodes: u8, number: u16, drawn: u32) -> Result<(), OutOfMemory>
    ensures { OnOk result (line.new ≡ line.old ++ hex_digits (sent_packet nodes number drawn)) }
{
    let source_port = 4000 + drawn / 1024 % 4;
    let size = drawn / 16 % 64;
    let mut room = [0; 91];
    let octets = &mut room[..28 + size as usize];
    write_headers(octets, nodes, number, source_port as u16, size as u16);
    write_checksum(octets);
    line.hex(octets)
}
