//! A flow that one rule matches and another one doesn't.

ghost use Rattle.std.specs.Prelude.{◌≡◌, true, false, IfSome, IfNone};
ghost use Rattle.ipv4_packet.specs.Identifier.{FitsFields};
ghost use Rattle.net_types.specs.Prefix.{covers as has_address};
ghost use Rattle.rule_model.specs.Matching.{has_port, has_protocol, matches, takes_hosts};
ghost use Rattle.rule_model.specs.Covering.{IsPrefix, IsRange, IsRule, covers, covers_connections, covers_hosts, covers_network, covers_ports, covers_protocol, greatest_port, has_connections, highest, least_port};

use crate::matching::{has_port, has_protocol, matches, takes_hosts};
use ipv4_packet::FlowId;
use net_types::{Addr, Prefix};
use rule_model::{Ports, Protocol, Rule};

/// The highest address of a prefix.
#[tactic(auto, using(crate::proofs::Ends::highest_fits))]
fn highest(prefix: &Prefix) -> Addr
    ensures highest { result ≡ highest prefix.now }
    ensures prefix { IsPrefix prefix.now }
{
    let hosts = 1u64 << (32 - prefix.len());
    Addr((prefix.addr().0 as u64 + (hosts - 1)) as u32)
}

/// An address of `other` that `one` lacks, if it lacks one: the lowest or the highest.
#[tactic(auto, using(crate::proofs::Ends::has_lowest, crate::proofs::Ends::has_highest))]
fn address_apart(one: &Prefix, other: &Prefix) -> Addr
    ensures there { has_address other.now result ≡ true }
    ensures here { has_address one.now result ≡ covers_network one.now other.now }
{
    if one.covers(other.addr()) {
        highest(other)
    } else {
        other.addr()
    }
}

fn least_port(ports: Ports) -> u16
    ensures { result ≡ least_port ports }
{
    match ports {
        Ports::Any => 0,
        Ports::Between { least, .. } => least,
    }
}

fn greatest_port(ports: Ports) -> u16
    ensures { result ≡ greatest_port ports }
{
    match ports {
        Ports::Any => 65_535,
        Ports::Between { greatest, .. } => greatest,
    }
}

/// A port of `other` that `one` lacks, if it lacks one: the least or the greatest.
#[tactic(auto, using(crate::proofs::Ends::has_least, crate::proofs::Ends::has_greatest))]
fn port_apart(one: Ports, other: Ports) -> u16
    ensures there { IsRange other → has_port other result ≡ true }
    ensures here { has_port one result ≡ covers_ports one other }
{
    let least = least_port(other);
    if has_port(one, least) {
        greatest_port(other)
    } else {
        least
    }
}

/// A protocol of flows of type 1 that are meant by `other` and not by `one`, if there is one; `None` where
/// `other` means none.
fn protocol_apart(one: Protocol, other: Protocol) -> Option<u8>
    ensures none { IfNone result (has_connections other ≡ false) }
    ensures there { IfSome result (λ protocol. has_protocol other protocol ≡ true) }
    ensures here { IfSome result (λ protocol. has_protocol one protocol ≡ covers_protocol one other) }
    ensures some { IfSome result (λ protocol. has_connections other ≡ true) }
{
    match other {
        Protocol::Two => None,
        Protocol::Udp => Some(17),
        Protocol::Tcp => Some(6),
        Protocol::Any => {
            if has_protocol(one, 17) {
                Some(6)
            } else {
                Some(17)
            }
        }
    }
}

/// A flow of type 1 that `other` matches and `one` doesn't.
fn connection_apart(one: &Rule, other: &Rule) -> Option<FlowId>
    ensures none { IfNone result (covers_connections one.now other.now ≡ true) }
    ensures some { IfSome result (λ flow. covers_connections one.now other.now ≡ false) }
    ensures in_range { IfSome result FitsFields }
    ensures there { IsRule other.now → IfSome result (λ flow. matches other.now flow ≡ true) }
    ensures here { IfSome result (λ flow. matches one.now flow ≡ false) }
{
    let protocol = protocol_apart(one.protocol, other.protocol)?;
    let flow = FlowId::One {
        tos: 0,
        ttl: 1,
        protocol,
        source: address_apart(&one.source, &other.source),
        destination: address_apart(&one.destination, &other.destination),
        source_port: port_apart(one.source_ports, other.source_ports),
        destination_port: port_apart(one.destination_ports, other.destination_ports),
    };
    if matches(one, &flow) {
        None
    } else {
        Some(flow)
    }
}

/// A flow of type 2 that `other` matches and `one` doesn't.
fn hosts_apart(one: &Rule, other: &Rule) -> Option<FlowId>
    ensures none { IfNone result (covers_hosts one.now other.now ≡ true) }
    ensures some { IfSome result (λ flow. covers_hosts one.now other.now ≡ false) }
    ensures in_range { IfSome result FitsFields }
    ensures there { IsRule other.now → IfSome result (λ flow. matches other.now flow ≡ true) }
    ensures here { IfSome result (λ flow. matches one.now flow ≡ false) }
{
    if !takes_hosts(other) {
        return None;
    }
    let flow = FlowId::Two {
        ttl: 1,
        source: address_apart(&one.source, &other.source),
        destination: address_apart(&one.destination, &other.destination),
    };
    if matches(one, &flow) {
        None
    } else {
        Some(flow)
    }
}

/// A flow in range that `other` matches and `one` doesn't; `None` where `one` covers `other`.
pub fn apart(one: &Rule, other: &Rule) -> Option<FlowId>
    ensures none { IfNone result (covers one.now other.now ≡ true) }
    ensures some { IfSome result (λ flow. covers one.now other.now ≡ false) }
    ensures in_range { IfSome result FitsFields }
    ensures there { IsRule other.now → IfSome result (λ flow. matches other.now flow ≡ true) }
    ensures here { IfSome result (λ flow. matches one.now flow ≡ false) }
{
    match connection_apart(one, other) {
        Some(flow) => Some(flow),
        None => hosts_apart(one, other),
    }
}
