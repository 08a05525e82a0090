//! Addresses, prefixes, channels and marks.

ghost use Rattle.std.specs.Prelude.{◌≡◌, ◌++◌, OnOk, OnErr, codes, decimal};
ghost use Rattle.lab_text.specs.Kept.{BreaksOff};
ghost use Rattle.script_model.specs.Texts.{address_text, prefix_text, channel_text, mark_text};

use lab_text::Text;
use net_types::{Addr, Channel, Mark, OutOfMemory, Prefix};

/// Appends an octet in decimal and a dot.
fn write_dotted(out: &mut Text, octet: u8) -> Result<(), OutOfMemory>
    ensures ok { OnOk result (out.new ≡ out.old ++ (decimal octet ++ codes ".")) }
    ensures err { OnErr result (BreaksOff out.old (out.old ++ (decimal octet ++ codes ".")) out.new) }
{
    out.number(u64::from(octet))?;
    out.text(".")
}

/// Appends an IPv4 address: its four octets in decimal, with dots between them.
pub fn write_address(out: &mut Text, addr: Addr) -> Result<(), OutOfMemory>
    ensures ok { OnOk result (out.new ≡ out.old ++ address_text addr) }
    ensures err { OnErr result (BreaksOff out.old (out.old ++ address_text addr) out.new) }
{
    let octets = addr.0.to_be_bytes();
    write_dotted(out, octets[0])?;
    write_dotted(out, octets[1])?;
    write_dotted(out, octets[2])?;
    out.number(u64::from(octets[3]))
}

/// Appends an IPv4 prefix: its lowest address, a slash and its length in bits.
pub fn write_prefix(out: &mut Text, prefix: Prefix) -> Result<(), OutOfMemory>
    ensures ok { OnOk result (out.new ≡ out.old ++ prefix_text prefix) }
    ensures err { OnErr result (BreaksOff out.old (out.old ++ prefix_text prefix) out.new) }
{
    write_address(out, prefix.addr())?;
    out.text("/")?;
    out.number(u64::from(prefix.len()))
}

/// Appends a channel: its VPI, a slash and its VCI.
pub fn write_channel(out: &mut Text, channel: Channel) -> Result<(), OutOfMemory>
    ensures ok { OnOk result (out.new ≡ out.old ++ channel_text channel) }
    ensures err { OnErr result (BreaksOff out.old (out.old ++ channel_text channel) out.new) }
{
    out.number(u64::from(channel.vpi))?;
    out.text("/")?;
    out.number(u64::from(channel.vci))
}

/// Appends a mark: the packet's number, a dot and the frame's.
pub fn write_mark(out: &mut Text, mark: Mark) -> Result<(), OutOfMemory>
    ensures ok { OnOk result (out.new ≡ out.old ++ mark_text mark) }
    ensures err { OnErr result (BreaksOff out.old (out.old ++ mark_text mark) out.new) }
{
    out.number(u64::from(mark.packet))?;
    out.text(".")?;
    out.number(mark.frame)
}
