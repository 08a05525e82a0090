//! Frames as text.

ghost use Rattle.std.specs.Prelude.{◌≡◌, ◌++◌, OnOk};
ghost use Rattle.ipv4_packet.specs.Packet.{first_fault};
ghost use Rattle.flow_encaps.specs.Unwrapped.{default_unwrapped};
ghost use Rattle.frame_words.specs.Frame.{carried_or, frame_text, octets_text, packet_or};

use crate::packet::write_packet;
use flow_encaps::unwrap_default;
use ipv4_packet::check;
use lab_text::Text;
use message_text::write_gsmp;
use net_types::OutOfMemory;

fn write_octets(out: &mut Text, octets: &[u8]) -> Result<(), OutOfMemory>
    ensures { OnOk result (out.new ≡ out.old ++ octets_text octets.now) }
{
    out.text("octets ")?;
    out.hex(octets)
}

/// Appends the text of what octets hold in the default encapsulation, or, where that is no packet, the
/// octets.
fn write_unwrapped(out: &mut Text, octets: &[u8], packet: &[u8]) -> Result<(), OutOfMemory>
    ensures { OnOk result (out.new ≡ out.old ++ packet_or octets.now packet.now (first_fault packet.now)) }
{
    match check(packet) {
        Ok(()) => write_packet(out, packet),
        Err(_) => write_octets(out, octets),
    }
}

/// Appends the text of a frame that is no message of GSMP.
#[tactic(auto, using(crate::proofs::Readings::packet_found, crate::proofs::Readings::packet_refused))]
fn write_carried(out: &mut Text, octets: &[u8]) -> Result<(), OutOfMemory>
    ensures { OnOk result (out.new ≡ out.old ++ carried_or octets.now (default_unwrapped octets.now)) }
{
    match unwrap_default(octets) {
        Ok(packet) => write_unwrapped(out, octets, packet),
        Err(_) => write_octets(out, octets),
    }
}

/// Appends the text of a frame with these octets of payload: the first that applies of the text of the
/// message of GSMP that they are; the text of the message of IFMP in the packet that they carry in the
/// default encapsulation; that packet's addresses, protocol, Time To Live (in hops) and number of
/// octets; and the octets themselves in lower-case hexadecimal.
#[tactic(auto, unfolding(crate::specs::Frame::frame_text))]
pub fn write_frame(out: &mut Text, octets: &[u8]) -> Result<(), OutOfMemory>
    ensures { OnOk result (out.new ≡ out.old ++ frame_text octets.now) }
{
    match gsmp_wire::decode(octets) {
        Ok(message) => write_gsmp(out, &message),
        Err(_) => write_carried(out, octets),
    }
}
