//! Blocks.

ghost use Rattle.std.specs.Prelude.{◌≡◌, ◌≤◌, ◌+◌, ◌++◌, ◌∷◌, [], length, OnOk, OnErr};
ghost use Rattle.pcapng_blocks.specs.Blocks.{Block, block_octets, if_description, if_name, if_tsresol, interface_body, opt_comment, packet_body, section_body, shb_userappl, sized_octets, time_octets};
ghost use Rattle.lab_text.specs.Kept.{BreaksOff};

use crate::fields::{put_padded, put_u16, put_u32};
use crate::option::{OptionCode, option_length, padded_length, put_end_of_options, put_option};
use net_types::OutOfMemory;

/// The types of blocks.
const SECTION_HEADER: u32 = 0x0A0D_0D0A;

const INTERFACE_DESCRIPTION: u32 = 1;

const ENHANCED_PACKET: u32 = 6;

/// By this number a reader sees which octet of a number comes first.
const BYTE_ORDER_MAGIC: u32 = 0x1A2B_3C4D;

/// The octets of a block that aren't its body's.
const AROUND: usize = 12;

/// Those of the end of a list of options.
const END_OF_OPTIONS: usize = 4;

/// Those of each body that stand before its options, and in a packet before its octets.
const SECTION_FIELDS: usize = 16;

const INTERFACE_FIELDS: usize = 8;

const PACKET_FIELDS: usize = 20;

fn put_section_body(out: &mut Vec<u8>, application: &[u8]) -> Result<(), OutOfMemory>
    ensures ok { OnOk result (out.new.items ≡ out.old.items ++ section_body (shb_userappl application.now ∷ [])) }
    ensures err { OnErr result (BreaksOff out.old.items (out.old.items ++ section_body (shb_userappl application.now ∷ [])) out.new.items) }
{
    put_u32(out, BYTE_ORDER_MAGIC)?;
    put_u16(out, 1)?;
    put_u16(out, 0)?;
    out.extend_from_slice(&[255; 8])?;
    put_option(out, OptionCode::UserApplication, application)?;
    put_end_of_options(out)
}

/// Appends a Section Header of version 1.0, which doesn't tell the section's length: the application that
/// writes the file.
pub fn write_section_header(out: &mut Vec<u8>, application: &[u8]) -> Result<(), OutOfMemory>
    ensures ok { OnOk result (out.new.items ≡ out.old.items ++ block_octets (Block.Section (shb_userappl application.now ∷ []))) }
    ensures err { OnErr result (BreaksOff out.old.items (out.old.items ++ block_octets (Block.Section (shb_userappl application.now ∷ []))) out.new.items) }
{
    let len = AROUND + SECTION_FIELDS + option_length(application.len()) + END_OF_OPTIONS;
    put_u32(out, SECTION_HEADER)?;
    put_u32(out, len as u32)?;
    put_section_body(out, application)?;
    put_u32(out, len as u32)?;
    Ok(())
}

fn put_interface_body(
    out: &mut Vec<u8>,
    link_type: u16,
    name: &[u8],
    description: &[u8],
    resolution: u8,
) -> Result<(), OutOfMemory>
    ensures ok { OnOk result (out.new.items ≡ out.old.items ++ interface_body link_type (if_name name.now ∷ if_description description.now ∷ if_tsresol resolution ∷ [])) }
    ensures err { OnErr result (BreaksOff out.old.items (out.old.items ++ interface_body link_type (if_name name.now ∷ if_description description.now ∷ if_tsresol resolution ∷ [])) out.new.items) }
{
    put_u16(out, link_type)?;
    put_u16(out, 0)?;
    put_u32(out, 0)?;
    put_option(out, OptionCode::InterfaceName, name)?;
    put_option(out, OptionCode::InterfaceDescription, description)?;
    put_option(out, OptionCode::TimestampResolution, &[resolution])?;
    put_end_of_options(out)
}

/// Appends an Interface Description: the link type of its packets, its name, a text on it, and the unit of
/// its times, ten to the power of minus `resolution` seconds, where `resolution` is below 128. Its packets
/// have no greatest length.
pub fn write_interface_description(
    out: &mut Vec<u8>,
    link_type: u16,
    name: &[u8],
    description: &[u8],
    resolution: u8,
) -> Result<(), OutOfMemory>
    ensures ok { OnOk result (out.new.items ≡ out.old.items ++ block_octets (Block.Interface link_type (if_name name.now ∷ if_description description.now ∷ if_tsresol resolution ∷ []))) }
    ensures err { OnErr result (BreaksOff out.old.items (out.old.items ++ block_octets (Block.Interface link_type (if_name name.now ∷ if_description description.now ∷ if_tsresol resolution ∷ []))) out.new.items) }
{
    let options = option_length(name.len()) + option_length(description.len()) + option_length(1);
    let len = AROUND + INTERFACE_FIELDS + options + END_OF_OPTIONS;
    put_u32(out, INTERFACE_DESCRIPTION)?;
    put_u32(out, len as u32)?;
    put_interface_body(out, link_type, name, description, resolution)?;
    put_u32(out, len as u32)?;
    Ok(())
}

/// Appends a time.
fn put_time(out: &mut Vec<u8>, timestamp: u64) -> Result<(), OutOfMemory>
    ensures ok { OnOk result (out.new.items ≡ out.old.items ++ time_octets timestamp) }
    ensures err { OnErr result (BreaksOff out.old.items (out.old.items ++ time_octets timestamp) out.new.items) }
{
    put_u32(out, (timestamp / 4_294_967_296) as u32)?;
    put_u32(out, (timestamp % 4_294_967_296) as u32)?;
    Ok(())
}

/// Appends a packet behind its two lengths.
fn put_sized(out: &mut Vec<u8>, packet: &[u8]) -> Result<(), OutOfMemory>
    requires { length packet.now ≤ 16777216 }
    ensures ok { OnOk result (out.new.items ≡ out.old.items ++ sized_octets packet.now) }
    ensures err { OnErr result (BreaksOff out.old.items (out.old.items ++ sized_octets packet.now) out.new.items) }
{
    put_u32(out, packet.len() as u32)?;
    put_u32(out, packet.len() as u32)?;
    put_padded(out, packet)?;
    Ok(())
}

fn put_packet_body(
    out: &mut Vec<u8>,
    interface: u32,
    timestamp: u64,
    packet: &[u8],
    comment: &[u8],
) -> Result<(), OutOfMemory>
    requires { length packet.now ≤ 16777216 }
    ensures ok { OnOk result (out.new.items ≡ out.old.items ++ packet_body interface timestamp packet.now (opt_comment comment.now ∷ [])) }
    ensures err { OnErr result (BreaksOff out.old.items (out.old.items ++ packet_body interface timestamp packet.now (opt_comment comment.now ∷ [])) out.new.items) }
{
    put_u32(out, interface)?;
    put_time(out, timestamp)?;
    put_sized(out, packet)?;
    put_option(out, OptionCode::Comment, comment)?;
    put_end_of_options(out)
}

/// Appends an Enhanced Packet: its interface, counted from 0 over the descriptions, its time in units of
/// that, all octets of the packet, of which there are at most 16,777,216, and a comment.
pub fn write_enhanced_packet(
    out: &mut Vec<u8>,
    interface: u32,
    timestamp: u64,
    packet: &[u8],
    comment: &[u8],
) -> Result<(), OutOfMemory>
    requires { length packet.now ≤ 16777216 }
    ensures ok { OnOk result (out.new.items ≡ out.old.items ++ block_octets (Block.Packet interface timestamp packet.now (opt_comment comment.now ∷ []))) }
    ensures err { OnErr result (BreaksOff out.old.items (out.old.items ++ block_octets (Block.Packet interface timestamp packet.now (opt_comment comment.now ∷ []))) out.new.items) }
{
    let octets = PACKET_FIELDS + padded_length(packet.len());
    let len = AROUND + octets + option_length(comment.len()) + END_OF_OPTIONS;
    put_u32(out, ENHANCED_PACKET)?;
    put_u32(out, len as u32)?;
    put_packet_body(out, interface, timestamp, packet, comment)?;
    put_u32(out, len as u32)?;
    Ok(())
}
