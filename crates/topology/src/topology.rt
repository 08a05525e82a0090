//! A topology, as lines make it.

ghost use Rattle.std.specs.Prelude.{◌≡◌, ◌≤◌, ◌<◌, [], length, None, Some, slice_get, IfOk, IfSome};
ghost use Rattle.std.specs.Option.{option_map, option_map_or};
ghost use Rattle.world_model.specs.Conditions.{HasItsNumbers, IsNode, IsTopology};
ghost use Rattle.world_model.specs.network_model.declared.line.TopologyLine.TheVariants as lines;
ghost use Rattle.world_model.specs.Lines.{after_line, is_linked, line_refusal, node_named, node_refusal, of_named, routes_of};
ghost use Rattle.world_model.specs.Topology.{empty_topology, node_at, peer_of, range_among, ranges_of, timers_of, vpis_of};
ghost use Rattle.topology.specs.Made.{IsMade};
ghost use Rattle.topology.specs.Plans.{next_refusal};
ghost use Rattle.topology.specs.Readers.{end_pair, link_pair, policy_pair};
ghost use Rattle.topology.specs.Taking.{Takes};

use crate::fault::TopologyFault;
use crate::node::Node;
use crate::plan::Plan;
use crate::routes::RouteList;
use ipv4_forward::{Next, Table};
use net_types::{Addr, LABEL_VPIS, LINK_PORTS, NodeId, OutOfMemory, PortNo, Prefix};
use port_model::Timers;
use std::alloc::Global;
use std::marker::Model;
use world_model::{PortRange, TopologyLine, TopologyRefusal};

/// Over how many ticks packets are counted where no flow is offered a label.
pub(crate) const WINDOW: usize = 10;

/// The configuration of a network of IP switches (its topology): its nodes with their routes and
/// labels, its links, and what is set for all of it. This project's own.
#[derive(Drop)]
pub struct Topology {
    plan: Plan,
}

impl Model for Topology {
    ghost use Rattle.world_model.specs.Topology.{Topology as Described};
    ghost use Rattle.topology.specs.Made.{IsMade};

    ghost Value = { Described };

    ghost view = { λ t. t.plan };

    ghost invariant = { λ t. IsMade t.plan };
}

impl Topology {
    /// No nodes, and what holds where no line says otherwise: the policy `xy 4 10`, the timers
    /// 60, 20 and 40, and version 1.
    pub fn new(alloc: Global) -> Result<Topology, OutOfMemory>
        ensures { IfOk result (λ topology. topology ≡ empty_topology) }
    {
        Ok(Topology {
            plan: Plan::open(alloc)?,
        })
    }

    /// Adds what a line says, whose numbers are within their limits. Its refusals come in this order:
    /// `DuplicateName` and `TooMany` of a node; `UnknownName` of every other line that names nodes; then
    /// `SelfLink`, `PortTaken` and `TooMany` of a link; `NoLink`, `Duplicate` and `TableFull` of a
    /// route. A refusal changes nothing, nor does want of memory, which comes only to a line that isn't
    /// refused.
    pub fn line(&mut self, line: &TopologyLine) -> Result<(), TopologyFault>
        requires { HasItsNumbers line.now }
        ensures { Takes self.old (after_line self.old line.now) self.new result }
    {
        self.plan.line(line)
    }

    /// Why a line can't be added that makes a node of this name, if it can't: `DuplicateName`, then
    /// `TooMany`.
    pub fn node_refusal(&self, name: &[u8]) -> Option<TopologyRefusal>
        ensures { result ≡ node_refusal self.now name.now }
    {
        self.plan.node_refusal(name)
    }

    /// Why a line can't be added that is of the node of this name alone, if it can't: `UnknownName`.
    pub fn name_refusal(&self, name: &[u8]) -> Option<TopologyRefusal>
        ensures { result ≡ of_named (λ node. None) (node_named self.now name.now) }
    {
        match self.plan.named(name) {
            Some(_) => None,
            None => Some(TopologyRefusal::UnknownName),
        }
    }

    /// Why a line can't be added that links these ports, if it can't: `UnknownName`, `SelfLink`, `PortTaken`,
    /// then `TooMany`.
    pub fn link_refusal(
        &self,
        first: &[u8],
        first_port: PortNo,
        second: &[u8],
        second_port: PortNo,
    ) -> Option<TopologyRefusal>
        ensures { result ≡ line_refusal self.now (lines.Link (first.now, first_port) (second.now, second_port)) }
    {
        self.plan
            .named_link_refusal(first, first_port, second, second_port)
    }

    /// Why a line can't be added that gives the node of this name a route, if it can't: `UnknownName`,
    /// `NoLink`, `Duplicate`, then `TableFull`.
    pub fn route_refusal(&self, name: &[u8], prefix: Prefix, next: Next) -> Option<TopologyRefusal>
        ensures { result ≡ of_named (λ node. next_refusal self.now prefix next node) (node_named self.now name.now) }
    {
        self.plan.named_route_refusal(name, prefix, next)
    }

    /// How many nodes there are, at most 64. A topology is what lines make of the empty one, all of
    /// whose numbers are within their limits; so it has all that such a one has.
    pub fn nodes(&self) -> usize
        ensures len { result ≡ length self.now.nodes }
        ensures few { result ≤ 64 }
        ensures made { IsMade self.now }
        ensures topology { IsTopology self.now }
    {
        self.plan.nodes.len()
    }

    fn node(&self, node: NodeId) -> &Node
        requires { IsNode self.now node }
        ensures { node_at self.now node ≡ Some result.now }
    {
        self.plan.nodes.at(node)
    }

    /// The octets of a node's name; none where there is no such node.
    pub fn name(&self, node: NodeId) -> &[u8]
        ensures { result.now ≡ option_map_or (λ n. n.name) (node_at self.now node) [] }
    {
        match self.plan.nodes.get(node) {
            Some(node) => node.name(),
            None => &[],
        }
    }

    /// A node's address.
    pub fn address(&self, node: NodeId) -> Addr
        requires { IsNode self.now node }
        ensures { option_map (λ n. n.address) (node_at self.now node) ≡ Some result }
    {
        self.node(node).address()
    }

    /// How many cells each of a node's two regions holds.
    pub fn cells(&self, node: NodeId) -> usize
        requires { IsNode self.now node }
        ensures { option_map (λ n. n.cells) (node_at self.now node) ≡ Some result }
    {
        self.node(node).cells() as usize
    }

    /// The node of this name; `None` exactly where no node has the name.
    pub fn node_of(&self, name: &[u8]) -> Option<NodeId>
        ensures number { result ≡ node_named self.now name.now }
        ensures within { IfSome result (IsNode self.now) }
    {
        self.plan.named(name)
    }

    /// The other end of the link at a port; `None` exactly where the port isn't linked.
    pub fn peer_of(&self, node: NodeId, port: PortNo) -> Option<(NodeId, PortNo)>
        ensures { result ≡ option_map end_pair (peer_of self.now node port) }
    {
        match self.plan.peer(node, port) {
            Some(far) => Some((far.node, far.port)),
            None => None,
        }
    }

    /// How many links there are.
    pub fn links(&self) -> usize
        ensures { result ≡ length self.now.links }
    {
        self.plan.links.len()
    }

    /// The two ends of the link at `place`, from 0, in the order of lines.
    pub fn link(&self, place: usize) -> ((NodeId, PortNo), (NodeId, PortNo))
        requires { place < length self.now.links }
        ensures { option_map link_pair (slice_get self.now.links place) ≡ Some result }
    {
        let link = self.plan.links.at(place);
        let first = link.first();
        let second = link.second();
        ((first.node, first.port), (second.node, second.port))
    }

    fn range(&self, node: NodeId, port: PortNo) -> PortRange
        requires { IsNode self.now node }
        ensures { option_map (λ n. range_among n.ranges port) (node_at self.now node) ≡ Some result }
    {
        self.node(node).range(port)
    }

    /// The numbers of the least and the greatest label of a port.
    pub fn labels(&self, node: NodeId, port: PortNo) -> (u16, u16)
        requires { IsNode self.now node }
        ensures { option_map (λ n. ((range_among n.ranges port).lo, (range_among n.ranges port).hi)) (node_at self.now node) ≡ Some result }
    {
        let range = self.range(node, port);
        (range.lo, range.hi)
    }

    fn is_linked(&self, node: NodeId, port: PortNo) -> bool
        ensures { result ≡ is_linked self.now node port }
    {
        self.plan.peer(node, port).is_some()
    }

    /// The linked ports of a node, ascending, each with the range of its labels.
    pub fn ranges(&self, alloc: Global, node: NodeId) -> Result<Vec<PortRange>, OutOfMemory>
        requires { IsNode self.now node }
        ensures { IfOk result (λ ranges. option_map (ranges_of self.now node) (node_at self.now node) ≡ Some ranges.items) }
    {
        linked_ranges(alloc, &self.plan, node, self.node(node), &LINK_PORTS)
    }

    /// How many routes a node has.
    pub fn routes(&self, node: NodeId) -> usize
        requires { IsNode self.now node }
        ensures { result ≡ length (routes_of self.now node) }
    {
        self.route_list(node).len()
    }

    /// A node's route at `place`, from 0, in the order of lines.
    pub fn route(&self, node: NodeId, place: usize) -> (Prefix, Next)
        requires node { IsNode self.now node }
        requires place { place < length (routes_of self.now node) }
        ensures { option_map (λ route. (route.prefix, route.next)) (slice_get (routes_of self.now node) place) ≡ Some result }
    {
        let route = self.route_list(node).at(place);
        (route.prefix, route.next)
    }

    /// All routes of a node.
    pub fn route_list(&self, node: NodeId) -> &RouteList
        requires { IsNode self.now node }
        ensures { result.now ≡ routes_of self.now node }
    {
        self.node(node).routes()
    }

    /// A table of a node's routes.
    pub fn table(&self, node: NodeId) -> Result<Table, OutOfMemory>
        requires { IsNode self.now node }
        ensures { IfOk result (λ table. table ≡ routes_of self.now node) }
    {
        self.route_list(node).table()
    }

    /// From how many packets in how many ticks on a flow is offered a label; `None` exactly where no
    /// flow is offered one.
    pub fn policy(&self) -> Option<(u32, u32)>
        ensures { result ≡ policy_pair self.now.policy }
    {
        match self.plan.threshold {
            Some(threshold) => Some((threshold.packets, threshold.ticks)),
            None => None,
        }
    }

    /// The ticks for which a Redirect holds, after which it is sent again, and for which a label may
    /// be idle.
    pub fn timers(&self) -> (u16, u16, u16)
        ensures { result ≡ (self.now.times.lifetime, self.now.times.refresh, self.now.times.idle) }
    {
        let spans = self.plan.spans;
        (spans.lifetime, spans.refresh, spans.idle)
    }

    /// The times of each port: those of its labels, and the ticks over which packets are counted, 10
    /// where no flow is offered a label.
    pub fn port_timers(&self) -> Timers
        ensures { result ≡ timers_of self.now }
    {
        let window = match self.policy() {
            Some((_, ticks)) => ticks as usize,
            None => WINDOW,
        };
        Timers {
            lifetime: self.plan.spans.lifetime,
            refresh: self.plan.spans.refresh,
            window,
        }
    }

    /// The version of the script, 1 or 2.
    pub fn version(&self) -> u8
        ensures { result ≡ self.now.version }
    {
        self.plan.version
    }

    /// How many VPIs labels can have: 16 in version 2, else 1.
    pub fn vpis(&self) -> u8
        ensures { result ≡ vpis_of self.now }
    {
        if self.plan.version == 2 {
            LABEL_VPIS as u8
        } else {
            1
        }
    }
}

ghost use Rattle.std.specs.Prelude.{filter, map, is_some};

fn linked_ranges(
    alloc: Global,
    plan: &Plan,
    number: NodeId,
    node: &Node,
    ports: &[PortNo],
) -> Result<Vec<PortRange>, OutOfMemory>
    ensures { IfOk result (λ ranges. ranges.items ≡ map (range_among node.now.ranges) (filter (λ port. is_some (peer_of plan.now number port)) ports.now)) }
{
    let mut ranges = Vec::new(alloc);
    for port in ports {
        if plan.peer(number, *port).is_some() {
            ranges.push(node.range(*port))?;
        }
    }
    Ok(ranges)
}
