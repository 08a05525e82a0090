//! The names of decoding errors: the one under which a record or a text shows why a packet, the
//! payload of a frame, or a message is refused.
#![tactic(auto)]

ghost use Rattle.std.specs.Prelude.{◌≡◌};
ghost use Rattle.refusal_names.specs.Names.{packet_refusal as name_of_packet, encaps_refusal as name_of_encaps, ifmp_refusal as name_of_ifmp, gsmp_refusal as name_of_gsmp};

use flow_encaps::EncapsFault;
use gsmp_wire::Fault as GsmpFault;
use ifmp_wire::Fault as IfmpFault;
use ipv4_packet::PacketFault;
use link_model::Refusal;

/// The name of what [`ipv4_packet::check`] refuses.
pub fn packet_refusal(fault: PacketFault) -> Refusal
    ensures { result ≡ name_of_packet fault }
{
    match fault {
        PacketFault::Short => Refusal::Short,
        PacketFault::Version => Refusal::Version,
        PacketFault::Options => Refusal::Options,
        PacketFault::Length => Refusal::Length,
        PacketFault::TooLong => Refusal::TooLong,
        PacketFault::Checksum => Refusal::Checksum,
    }
}

/// The name of what [`flow_encaps::unwrap_default`] and [`flow_encaps::unwrap_flow`] refuse.
pub fn encaps_refusal(fault: EncapsFault) -> Refusal
    ensures { result ≡ name_of_encaps fault }
{
    match fault {
        EncapsFault::Short => Refusal::Short,
        EncapsFault::BadSnap => Refusal::BadSnap,
        EncapsFault::Reserved => Refusal::Reserved,
        EncapsFault::Length => Refusal::Length,
        EncapsFault::Checksum => Refusal::Checksum,
    }
}

/// The name of what [`ifmp_wire::decode`] refuses.
pub fn ifmp_refusal(fault: IfmpFault) -> Refusal
    ensures { result ≡ name_of_ifmp fault }
{
    match fault {
        IfmpFault::Short => Refusal::Short,
        IfmpFault::Version => Refusal::Version,
        IfmpFault::OpCode => Refusal::OpCode,
        IfmpFault::Size => Refusal::Size,
        IfmpFault::Checksum => Refusal::Checksum,
        IfmpFault::FlowType => Refusal::FlowType,
        IfmpFault::FlowLength => Refusal::FlowLength,
        IfmpFault::ZeroLifetime => Refusal::ZeroLifetime,
        IfmpFault::LabelReserved => Refusal::LabelReserved,
        IfmpFault::RangeOrder => Refusal::RangeOrder,
        IfmpFault::ErrorCode => Refusal::ErrorCode,
        IfmpFault::Reserved => Refusal::Reserved,
        IfmpFault::FlowFields => Refusal::FlowFields,
    }
}

/// The name of what [`gsmp_wire::decode`] refuses.
pub fn gsmp_refusal(fault: GsmpFault) -> Refusal
    ensures { result ≡ name_of_gsmp fault }
{
    match fault {
        GsmpFault::Short => Refusal::Short,
        GsmpFault::Snap => Refusal::Snap,
        GsmpFault::Version => Refusal::Version,
        GsmpFault::MessageType => Refusal::MessageType,
        GsmpFault::Result => Refusal::Result,
        GsmpFault::Code => Refusal::Code,
        GsmpFault::Size => Refusal::Size,
        GsmpFault::Reserved => Refusal::Reserved,
    }
}
