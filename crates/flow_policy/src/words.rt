//! The words of a rule.

ghost use Rattle.std.specs.Prelude.{◌≡◌, ◌∷◌, ◌==◌, ◌<◌, [], length, false, IfNone, IfSome};
ghost use Rattle.lab_text.specs.Words.{words};

use lab_text::split_word;
use word_forms::four_words;

/// The unparsed match of an access list entry: the words that say which flows a rule is of.
#[derive(Clone, Copy, Debug)]
pub struct FlowWords<'a> {
    /// Their type and protocol.
    pub protocol: &'a [u8],
    /// Their sources.
    pub source: &'a [u8],
    /// Their destinations.
    pub destination: &'a [u8],
    /// Their source ports.
    pub source_ports: &'a [u8],
    /// Their destination ports.
    pub destination_ports: &'a [u8],
}

/// The unparsed action of an access list entry: the words that say from when on and for how long an
/// offer holds.
#[derive(Clone, Copy, Debug)]
pub struct OfferWords<'a> {
    /// A word that is fixed.
    pub after: &'a [u8],
    /// How many packets.
    pub packets: &'a [u8],
    /// A word that is fixed.
    pub keep: &'a [u8],
    /// How many ticks.
    pub ticks: &'a [u8],
}

/// The first five words of `octets`, and what stands behind them; `None` where there are fewer.
fn first_five(octets: &[u8]) -> Option<(FlowWords<'_>, &[u8])>
    ensures none { IfNone result (length (words octets.now) < 5) }
    ensures some { IfSome result (λ found. words octets.now ≡ found.0.protocol.now ∷ found.0.source.now ∷ found.0.destination.now ∷ found.0.source_ports.now ∷ found.0.destination_ports.now ∷ words found.1.now) }
{
    let (protocol, rest) = split_word(octets)?;
    let (source, rest) = split_word(rest)?;
    let (destination, rest) = split_word(rest)?;
    let (source_ports, rest) = split_word(rest)?;
    let (destination_ports, rest) = split_word(rest)?;
    let flows = FlowWords {
        protocol,
        source,
        destination,
        source_ports,
        destination_ports,
    };
    Some((flows, rest))
}

/// The five words of `octets`; `None` where there is another number of them.
pub fn flow_words(octets: &[u8]) -> Option<FlowWords<'_>>
    ensures none { IfNone result ((5 == length (words octets.now)) ≡ false) }
    ensures some { IfSome result (λ found. words octets.now ≡ found.protocol.now ∷ found.source.now ∷ found.destination.now ∷ found.source_ports.now ∷ found.destination_ports.now ∷ []) }
{
    let (flows, rest) = first_five(octets)?;
    match split_word(rest) {
        None => Some(flows),
        Some(_) => None,
    }
}

/// The nine words of `octets`; `None` where there is another number of them.
pub fn offer_words(octets: &[u8]) -> Option<(FlowWords<'_>, OfferWords<'_>)>
    ensures none { IfNone result ((9 == length (words octets.now)) ≡ false) }
    ensures some { IfSome result (λ found. words octets.now ≡ found.0.protocol.now ∷ found.0.source.now ∷ found.0.destination.now ∷ found.0.source_ports.now ∷ found.0.destination_ports.now ∷ found.1.after.now ∷ found.1.packets.now ∷ found.1.keep.now ∷ found.1.ticks.now ∷ []) }
{
    let (flows, rest) = first_five(octets)?;
    let (after, packets, keep, ticks) = four_words(rest)?;
    let offer = OfferWords {
        after,
        packets,
        keep,
        ticks,
    };
    Some((flows, offer))
}
