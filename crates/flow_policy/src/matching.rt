//! Which flows a rule matches.

ghost use Rattle.std.specs.Prelude.{◌≡◌};
ghost use Rattle.rule_model.specs.Matching.{are_all, has_ends, has_hosts, has_port, has_protocol, matches, takes_hosts};

use ipv4_packet::FlowId;
use net_types::Addr;
use rule_model::{Ports, Protocol, Rule};

/// Whether flows of type 1 over this protocol are meant: 17 is UDP, 6 is TCP.
pub fn has_protocol(sort: Protocol, protocol: u8) -> bool
    ensures { result ≡ has_protocol sort protocol }
{
    match sort {
        Protocol::Udp => protocol == 17,
        Protocol::Tcp => protocol == 6,
        Protocol::Two => false,
        Protocol::Any => protocol == 6 || protocol == 17,
    }
}

fn has_hosts(sort: Protocol) -> bool
    ensures { result ≡ has_hosts sort }
{
    match sort {
        Protocol::Udp | Protocol::Tcp => false,
        Protocol::Two | Protocol::Any => true,
    }
}

/// Whether a port is one of these.
pub fn has_port(ports: Ports, port: u16) -> bool
    ensures { result ≡ has_port ports port }
{
    match ports {
        Ports::Any => true,
        Ports::Between { least, greatest } => least <= port && port <= greatest,
    }
}

fn are_all(ports: Ports) -> bool
    ensures { result ≡ are_all ports }
{
    match ports {
        Ports::Any => true,
        Ports::Between { .. } => false,
    }
}

fn has_ends(rule: &Rule, source: Addr, destination: Addr) -> bool
    ensures { result ≡ has_ends rule.now source destination }
{
    rule.source.covers(source) && rule.destination.covers(destination)
}

/// Whether the rule is of flows of type 2, which have no ports.
pub fn takes_hosts(rule: &Rule) -> bool
    ensures { result ≡ takes_hosts rule.now }
{
    has_hosts(rule.protocol) && are_all(rule.source_ports) && are_all(rule.destination_ports)
}

/// Whether the rule matches the flow.
pub fn matches(rule: &Rule, flow: &FlowId) -> bool
    ensures { result ≡ matches rule.now flow.now }
{
    match *flow {
        FlowId::One {
            tos: _,
            ttl: _,
            protocol,
            source,
            destination,
            source_port,
            destination_port,
        } => {
            has_ends(rule, source, destination)
                && has_protocol(rule.protocol, protocol)
                && has_port(rule.source_ports, source_port)
                && has_port(rule.destination_ports, destination_port)
        }
        FlowId::Two {
            ttl: _,
            source,
            destination,
        } => has_ends(rule, source, destination) && takes_hosts(rule),
    }
}
