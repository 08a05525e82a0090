//! Tags: an octet for each grant, by which a search passes over those of other flows.

ghost use Rattle.std.specs.Prelude.{◌≡◌, ◌+◌, ◌%◌, ◌&&◌, option_map, find, map};
ghost use Rattle.ipv4_packet.specs.Parts.{same_flow};
ghost use Rattle.branch_desk.specs.port_model.Grants.{is_by_controller};
ghost use Rattle.grant_table.specs.Held.{shown};
ghost use Rattle.grant_table.specs.Tags.{flow_tag, held_tag};

use crate::held::Held;
use ipv4_packet::FlowId;
use memchr::memchr;
use net_types::Addr;

/// The tag of what goes between two hosts.
fn hosts_tag(source: Addr, destination: Addr) -> u8
    ensures { result ≡ (source.0 + destination.0) % 256 }
{
    ((u64::from(source.0) + u64::from(destination.0)) % 256) as u8
}

/// The tag of what goes between a port of each.
fn connection_tag(source: Addr, destination: Addr, source_port: u16, destination_port: u16) -> u8
    ensures { result ≡ (source.0 + destination.0 + source_port + destination_port) % 256 }
{
    let hosts = u64::from(source.0) + u64::from(destination.0);
    ((hosts + u64::from(source_port) + u64::from(destination_port)) % 256) as u8
}

/// The tag of a flow: the lowest octet of the sum of its addresses and ports.
pub(crate) fn flow_tag(flow: &FlowId) -> u8
    ensures { result ≡ flow_tag flow.now }
{
    match *flow {
        FlowId::One {
            source,
            destination,
            source_port,
            destination_port,
            ..
        } => connection_tag(source, destination, source_port, destination_port),
        FlowId::Two {
            source,
            destination,
            ..
        } => hosts_tag(source, destination),
    }
}

/// The first grant under which the controller sends a flow. Of the grants before it, only those whose tag is
/// the flow's are looked at.
pub(crate) fn first_of<'a>(held: &'a [Held], tags: &[u8], flow: &FlowId) -> Option<&'a Held>
    requires { tags.now ≡ map held_tag held.now }
    ensures { option_map (λ h. h.now) result ≡ find (λ h. is_by_controller (shown h).state && same_flow (shown h).flow flow.now) held.now }
{
    let tag = flow_tag(flow);
    let mut from = 0;
    while from < tags.len() {
        let Some(found) = memchr(tag, &tags[from..]) else {
            return None;
        };
        let grant = &held[from + found];
        if grant.carries(flow) {
            return Some(grant);
        }
        from += found + 1;
    }
    None
}
