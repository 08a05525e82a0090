//! Causes, layers and refusals by their names, where these are read: for tests and claims alone.

ghost use Rattle.std.specs.Prelude.{◌≡◌, bytes_eq};
ghost use Rattle.lab_text.specs.Names.{cause_text, drop_text, layer_text, refusal_text};
ghost use Rattle.record_text.specs.Reading.{cause_of, drop_of, layer_of, refusal_of};

use lab_text::{cause_name, drop_name, layer_name, refusal_name};
use link_model::{Cause, DropCause, Layer, Refusal};

fn is_cause(word: &[u8], cause: Cause) -> bool
    ensures { result ≡ bytes_eq word.now (cause_text cause) }
{
    word == cause_name(cause).as_bytes()
}

/// All causes of the loss ledger.
const CAUSES: [Cause; 6] = [
    Cause::Lost,
    Cause::Unconnected,
    Cause::PoolFull,
    Cause::Cut,
    Cause::Unbound,
    Cause::Broken,
];

/// The cause of this name.
pub(crate) fn cause_of(word: &[u8]) -> Option<Cause>
    ensures { result ≡ cause_of word.now }
{
    CAUSES.iter().copied().find(|cause| is_cause(word, *cause))
}

fn is_layer(word: &[u8], layer: Layer) -> bool
    ensures { result ≡ bytes_eq word.now (layer_text layer) }
{
    word == layer_name(layer).as_bytes()
}

/// All layers.
const LAYERS: [Layer; 4] = [Layer::Encaps, Layer::Packet, Layer::Ifmp, Layer::Gsmp];

/// The layer of this name.
pub(crate) fn layer_of(word: &[u8]) -> Option<Layer>
    ensures { result ≡ layer_of word.now }
{
    LAYERS.iter().copied().find(|layer| is_layer(word, *layer))
}

fn is_drop_cause(word: &[u8], cause: DropCause) -> bool
    ensures { result ≡ bytes_eq word.now (drop_text cause) }
{
    word == drop_name(cause).as_bytes()
}

/// All causes for which a router drops a packet.
const DROP_CAUSES: [DropCause; 2] = [DropCause::NoRoute, DropCause::Expired];

/// The cause of a drop of this name.
pub(crate) fn drop_of(word: &[u8]) -> Option<DropCause>
    ensures { result ≡ drop_of word.now }
{
    DROP_CAUSES
        .iter()
        .copied()
        .find(|cause| is_drop_cause(word, *cause))
}

fn is_refusal(word: &[u8], refusal: Refusal) -> bool
    ensures { result ≡ bytes_eq word.now (refusal_text refusal) }
{
    word == refusal_name(refusal).as_bytes()
}

/// All names of refusals.
const REFUSALS: [Refusal; 22] = [
    Refusal::Short,
    Refusal::Version,
    Refusal::Options,
    Refusal::Length,
    Refusal::TooLong,
    Refusal::Checksum,
    Refusal::ControlProtocol,
    Refusal::BadSnap,
    Refusal::Snap,
    Refusal::OpCode,
    Refusal::MessageType,
    Refusal::Result,
    Refusal::Code,
    Refusal::Size,
    Refusal::FlowType,
    Refusal::FlowLength,
    Refusal::ZeroLifetime,
    Refusal::LabelReserved,
    Refusal::RangeOrder,
    Refusal::ErrorCode,
    Refusal::Reserved,
    Refusal::FlowFields,
];

/// The refusal of this name.
pub(crate) fn refusal_of(word: &[u8]) -> Option<Refusal>
    ensures { result ≡ refusal_of word.now }
{
    REFUSALS
        .iter()
        .copied()
        .find(|refusal| is_refusal(word, *refusal))
}
