//! Packets as text.

ghost use Rattle.std.specs.Prelude.{◌≡◌, ◌++◌, OnOk, codes, decimal, drop, length};
ghost use Rattle.ipv4_packet.specs.Packet.{IsPacket, source_of, destination_of, protocol_of, ttl_of};
ghost use Rattle.ifmp_wire.specs.Fields.{decoded as ifmp_decoded};
ghost use Rattle.record_text.specs.script_model.Texts.{address_text};
ghost use Rattle.frame_words.specs.Frame.{carried_text, message_or, packet_text};

use ipv4_packet::{IFMP_PROTOCOL, destination, protocol, source, ttl};
use lab_text::Text;
use message_text::write_ifmp;
use net_types::OutOfMemory;
use record_text::write_address;

/// Appends where a packet comes from and where it goes.
fn write_way(out: &mut Text, packet: &[u8]) -> Result<(), OutOfMemory>
    requires { IsPacket packet.now }
    ensures { OnOk result (out.new ≡ out.old ++ (codes "packet " ++ (address_text (source_of packet.now) ++ (codes " > " ++ address_text (destination_of packet.now))))) }
{
    out.text("packet ")?;
    write_address(out, source(packet))?;
    out.text(" > ")?;
    write_address(out, destination(packet))
}

/// Appends a packet's protocol, its Time To Live and the number of its octets.
fn write_header(out: &mut Text, packet: &[u8]) -> Result<(), OutOfMemory>
    requires { IsPacket packet.now }
    ensures { OnOk result (out.new ≡ out.old ++ (codes " protocol " ++ (decimal (protocol_of packet.now) ++ (codes " ttl " ++ (decimal (ttl_of packet.now) ++ (codes " octets " ++ decimal (length packet.now))))))) }
{
    out.text(" protocol ")?;
    out.number(u64::from(protocol(packet)))?;
    out.text(" ttl ")?;
    out.number(u64::from(ttl(packet)))?;
    out.text(" octets ")?;
    out.number(packet.len() as u64)
}

/// Appends what a packet's header says.
fn write_fields(out: &mut Text, packet: &[u8]) -> Result<(), OutOfMemory>
    requires { IsPacket packet.now }
    ensures { OnOk result (out.new ≡ out.old ++ packet_text packet.now) }
{
    write_way(out, packet)?;
    write_header(out, packet)
}

/// Appends the message behind the header of a packet of IFMP, or, where none is there, what the header
/// says.
#[tactic(auto, using(crate::proofs::Readings::message_told, crate::proofs::Readings::message_refused))]
fn write_control(out: &mut Text, packet: &[u8]) -> Result<(), OutOfMemory>
    requires { IsPacket packet.now }
    ensures { OnOk result (out.new ≡ out.old ++ message_or packet.now (ifmp_decoded (drop 20 packet.now))) }
{
    match ifmp_wire::decode(&packet[20..]) {
        Ok(message) => write_ifmp(out, &message),
        Err(_) => write_fields(out, packet),
    }
}

/// Appends a message of IFMP, where the packet is one, or what the packet's header says.
pub(crate) fn write_packet(out: &mut Text, packet: &[u8]) -> Result<(), OutOfMemory>
    requires { IsPacket packet.now }
    ensures { OnOk result (out.new ≡ out.old ++ carried_text packet.now) }
{
    if protocol(packet) == IFMP_PROTOCOL {
        write_control(out, packet)
    } else {
        write_fields(out, packet)
    }
}
