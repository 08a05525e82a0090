//! The fields of a message as text.

ghost use Rattle.std.specs.Prelude.{◌≡◌, ◌++◌, OnOk, OnErr};
ghost use Rattle.lab_text.specs.Kept.{BreaksOff};
ghost use Rattle.message_text.specs.Fields.{named_number, named_octets, named_channel, named_address};

use lab_text::Text;
use net_types::{Addr, Channel, OutOfMemory};

#[tactic(auto, unfolding(crate::specs::Fields::named_number))]
pub(crate) fn write_number(out: &mut Text, name: &str, number: u64) -> Result<(), OutOfMemory>
    ensures ok { OnOk result (out.new ≡ out.old ++ named_number name.now number) }
    ensures err { OnErr result (BreaksOff out.old (out.old ++ named_number name.now number) out.new) }
{
    out.text(name)?;
    out.number(number)
}

#[tactic(auto, unfolding(crate::specs::Fields::named_octets))]
pub(crate) fn write_octets(out: &mut Text, name: &str, octets: &[u8]) -> Result<(), OutOfMemory>
    ensures ok { OnOk result (out.new ≡ out.old ++ named_octets name.now octets.now) }
    ensures err { OnErr result (BreaksOff out.old (out.old ++ named_octets name.now octets.now) out.new) }
{
    out.text(name)?;
    out.hex(octets)
}

#[tactic(auto, unfolding(crate::specs::Fields::named_channel))]
pub(crate) fn write_channel(out: &mut Text, name: &str, channel: Channel) -> Result<(), OutOfMemory>
    ensures ok { OnOk result (out.new ≡ out.old ++ named_channel name.now channel) }
    ensures err { OnErr result (BreaksOff out.old (out.old ++ named_channel name.now channel) out.new) }
{
    write_number(out, name, u64::from(channel.vpi))?;
    write_number(out, "/", u64::from(channel.vci))
}

#[tactic(auto, unfolding(crate::specs::Fields::named_address))]
pub(crate) fn write_address(out: &mut Text, name: &str, addr: Addr) -> Result<(), OutOfMemory>
    ensures ok { OnOk result (out.new ≡ out.old ++ named_address name.now addr) }
    ensures err { OnErr result (BreaksOff out.old (out.old ++ named_address name.now addr) out.new) }
{
    write_number(out, name, u64::from(addr.0 / 0x100_0000))?;
    write_number(out, ".", u64::from(addr.0 / 0x1_0000 % 0x100))?;
    write_number(out, ".", u64::from(addr.0 / 0x100 % 0x100))?;
    write_number(out, ".", u64::from(addr.0 % 0x100))
}
