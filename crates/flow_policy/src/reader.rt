//! What a line of rules says.

ghost use Rattle.std.specs.Prelude.{◌≡◌};
ghost use Rattle.std.specs.Option.{ok_or, option_and_then};
ghost use Rattle.lab_text.specs.Forms.{prefix_of, number_in};
ghost use Rattle.lab_text.specs.Line.{text_fault};
ghost use Rattle.lab_text.specs.Words.{words};
ghost use Rattle.rule_model.specs.declared.refusal.RuleRefusal.TheVariants as why;
ghost use Rattle.rule_model.specs.Reading.{denial_of, denies, fault_name, offer_of, offers, ports_for, ports_of, protocol_of, rule_of, text_rule};

use crate::words::{FlowWords, OfferWords, flow_words, offer_words};
use lab_text::{LINE_LIMIT, are_script_octets, is_blank_line, split_word};
use net_types::Prefix;
use rule_model::{Decision, Ports, Protocol, Rule, RuleRefusal};
use word_forms::{number_in, prefix_of, split_at_sign};

fn read_protocol(word: &[u8]) -> Result<Protocol, RuleRefusal>
    ensures { result ≡ ok_or (protocol_of word.now) why.UnknownWord }
{
    if word == "udp".as_bytes() {
        Ok(Protocol::Udp)
    } else if word == "tcp".as_bytes() {
        Ok(Protocol::Tcp)
    } else if word == "two".as_bytes() {
        Ok(Protocol::Two)
    } else if word == "any".as_bytes() {
        Ok(Protocol::Any)
    } else {
        Err(RuleRefusal::UnknownWord)
    }
}

fn read_prefix(word: &[u8]) -> Result<Prefix, RuleRefusal>
    ensures { result ≡ ok_or (prefix_of word.now) why.BadPrefix }
{
    match prefix_of(word) {
        Some(prefix) => Ok(prefix),
        None => Err(RuleRefusal::BadPrefix),
    }
}

/// `any`, or a range `LO-HI` that isn't empty.
fn ports_of(word: &[u8]) -> Option<Ports>
    ensures { result ≡ ports_of word.now }
{
    if word == "any".as_bytes() {
        return Some(Ports::Any);
    }
    let (least, greatest) = split_at_sign(word, b'-')?;
    let least = number_in(least, 0, 65_535)?;
    let greatest = number_in(greatest, 0, 65_535)?;
    if least > greatest {
        return None;
    }
    Some(Ports::Between {
        least: least as u16,
        greatest: greatest as u16,
    })
}

/// `any` alone.
fn all_ports(word: &[u8]) -> Option<Ports>
    ensures { result ≡ ports_for Protocol.Two word.now }
{
    if word == "any".as_bytes() {
        Some(Ports::Any)
    } else {
        None
    }
}

/// The ports of flows of this protocol: flows of type 2 have none.
fn read_ports(protocol: Protocol, word: &[u8]) -> Result<Ports, RuleRefusal>
    ensures { result ≡ ok_or (ports_for protocol word.now) why.BadPorts }
{
    let found = match protocol {
        Protocol::Two => all_ports(word),
        Protocol::Udp | Protocol::Tcp | Protocol::Any => ports_of(word),
    };
    match found {
        Some(ports) => Ok(ports),
        None => Err(RuleRefusal::BadPorts),
    }
}

fn read_number(word: &[u8]) -> Result<u32, RuleRefusal>
    ensures { result ≡ ok_or (number_in 1 65535 word.now) why.BadNumber }
{
    match number_in(word, 1, 65_535) {
        Some(number) => Ok(number),
        None => Err(RuleRefusal::BadNumber),
    }
}

/// The rule that denies the flows of these words.
fn denial_of(protocol: Protocol, words: &FlowWords<'_>) -> Result<Rule, RuleRefusal>
    ensures { result ≡ denial_of protocol words.now.source.now words.now.destination.now words.now.source_ports.now words.now.destination_ports.now }
{
    let source = read_prefix(words.source)?;
    let destination = read_prefix(words.destination)?;
    let source_ports = read_ports(protocol, words.source_ports)?;
    let destination_ports = read_ports(protocol, words.destination_ports)?;
    Ok(Rule {
        protocol,
        source,
        destination,
        source_ports,
        destination_ports,
        decision: Decision::Deny,
    })
}

fn offer_of(words: &OfferWords<'_>) -> Result<Decision, RuleRefusal>
    ensures { result ≡ offer_of words.now.packets.now words.now.ticks.now }
{
    let after = read_number(words.packets)?;
    let keep = read_number(words.ticks)?;
    Ok(Decision::Offer { after, keep })
}

/// What stands behind `deny`.
#[tactic(auto, using(crate::proofs::Said::denies_else))]
fn deny_rule(rest: &[u8]) -> Result<Rule, RuleRefusal>
    ensures { result ≡ denies (words rest.now) }
{
    let Some(words) = flow_words(rest) else {
        return Err(RuleRefusal::Arity);
    };
    let protocol = read_protocol(words.protocol)?;
    denial_of(protocol, &words)
}

/// What stands behind `offer`.
#[tactic(auto, using(crate::proofs::Said::offers_else))]
fn offer_rule(rest: &[u8]) -> Result<Rule, RuleRefusal>
    ensures { result ≡ offers (words rest.now) }
{
    let Some((words, offer)) = offer_words(rest) else {
        return Err(RuleRefusal::Arity);
    };
    if offer.after != "after".as_bytes() || offer.keep != "keep".as_bytes() {
        return Err(RuleRefusal::UnknownWord);
    }
    let protocol = read_protocol(words.protocol)?;
    let mut rule = denial_of(protocol, &words)?;
    rule.decision = offer_of(&offer)?;
    Ok(rule)
}

fn rule_of(first: &[u8], rest: &[u8]) -> Result<Rule, RuleRefusal>
    ensures { result ≡ rule_of first.now (words rest.now) }
{
    if first == "deny".as_bytes() {
        deny_rule(rest)
    } else if first == "offer".as_bytes() {
        offer_rule(rest)
    } else {
        Err(RuleRefusal::UnknownWord)
    }
}

/// Why the octets of a line are refused, if they are: `LineTooLong`, then `BadByte`.
fn text_refusal(text: &[u8]) -> Option<RuleRefusal>
    ensures { result ≡ option_and_then fault_name (text_fault text.now) }
{
    if LINE_LIMIT < text.len() {
        Some(RuleRefusal::LineTooLong)
    } else if !are_script_octets(text) {
        Some(RuleRefusal::BadByte)
    } else {
        None
    }
}

/// The rule of a line, which has no end; `None` where it is blank: without words, or with a first word
/// that begins with `#`. Its refusals come in this order: `LineTooLong`; `BadByte`; `UnknownWord` of the
/// first word; `Arity`; `UnknownWord` of the protocol, of `after` and of `keep`; `BadPrefix`, `BadPorts`
/// and `BadNumber` from left to right.
pub fn read_rule(text: &[u8]) -> Result<Option<Rule>, RuleRefusal>
    ensures { result ≡ text_rule text.now }
{
    if let Some(refusal) = text_refusal(text) {
        return Err(refusal);
    }
    if is_blank_line(text) {
        return Ok(None);
    }
    let Some((first, rest)) = split_word(text) else {
        return Ok(None);
    };
    let rule = rule_of(first, rest)?;
    Ok(Some(rule))
}
