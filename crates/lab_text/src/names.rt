//! The words by which a report names causes, layers and refusals.

ghost use Rattle.std.specs.Prelude.{◌≡◌};
ghost use Rattle.lab_text.specs.Names.{cause_text, drop_text, layer_text, refusal_text};

use link_model::{Cause, DropCause, Layer, Refusal};

/// The word of a cause of the loss ledger.
pub fn cause_name(cause: Cause) -> &'static str
    ensures { result.now ≡ cause_text cause }
{
    match cause {
        Cause::Lost => "Lost",
        Cause::Unconnected => "Unconnected",
        Cause::PoolFull => "PoolFull",
        Cause::Cut => "Cut",
        Cause::Unbound => "Unbound",
        Cause::Broken => "Broken",
    }
}

/// The word of a cause for which a router drops a packet.
pub fn drop_name(cause: DropCause) -> &'static str
    ensures { result.now ≡ drop_text cause }
{
    match cause {
        DropCause::NoRoute => "NoRoute",
        DropCause::Expired => "Expired",
    }
}

/// The word of a layer.
pub fn layer_name(layer: Layer) -> &'static str
    ensures { result.now ≡ layer_text layer }
{
    match layer {
        Layer::Encaps => "encaps",
        Layer::Packet => "packet",
        Layer::Ifmp => "ifmp",
        Layer::Gsmp => "gsmp",
    }
}

/// The name of a refusal.
pub fn refusal_name(refusal: Refusal) -> &'static str
    ensures { result.now ≡ refusal_text refusal }
{
    match refusal {
        Refusal::Short => "Short",
        Refusal::Version => "Version",
        Refusal::Options => "Options",
        Refusal::Length => "Length",
        Refusal::TooLong => "TooLong",
        Refusal::Checksum => "Checksum",
        Refusal::ControlProtocol => "ControlProtocol",
        Refusal::BadSnap => "BadSnap",
        Refusal::Snap => "Snap",
        Refusal::OpCode => "OpCode",
        Refusal::MessageType => "MessageType",
        Refusal::Result => "Result",
        Refusal::Code => "Code",
        Refusal::Size => "Size",
        Refusal::FlowType => "FlowType",
        Refusal::FlowLength => "FlowLength",
        Refusal::ZeroLifetime => "ZeroLifetime",
        Refusal::LabelReserved => "LabelReserved",
        Refusal::RangeOrder => "RangeOrder",
        Refusal::ErrorCode => "ErrorCode",
        Refusal::Reserved => "Reserved",
        Refusal::FlowFields => "FlowFields",
    }
}
