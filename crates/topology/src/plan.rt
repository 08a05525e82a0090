//! The parts of a topology, and what each line adds to them.

ghost use Rattle.std.specs.Prelude.{◌≡◌, ◌≤◌, length, None, Some, IfOk, IfSome, OnOk, OnErr};
ghost use Rattle.world_model.specs.network_model.declared.line.TopologyLine.TheVariants as lines;
ghost use Rattle.world_model.specs.Lines.{after_line, line_refusal, link_refusal, node_named, node_refusal, of_named};
ghost use Rattle.world_model.specs.Topology.{empty_topology, peer_of};
ghost use Rattle.topology.specs.Plans.{next_refusal, route_line};
ghost use Rattle.topology.specs.Taking.{Makes, Takes};

use crate::fault::TopologyFault;
use crate::links::Links;
use crate::nodes::{NODES, Nodes};
use crate::settings::{Spans, Threshold};
use crate::topology::WINDOW;
use ipv4_forward::Next;
use net_types::{Addr, NodeId, OutOfMemory, PortNo, Prefix};
use std::alloc::Global;
use std::marker::Model;
use world_model::{LinkEnd, PortRange, TopologyLine, TopologyRefusal};

/// The most links of a network.
const LINKS: usize = 256;

/// A line names a node that there isn't.
const UNKNOWN_NAME: TopologyFault = TopologyFault::Refused(TopologyRefusal::UnknownName);

/// A network configuration: nodes and links, and what is set for all of them.
#[derive(Drop)]
pub struct Plan {
    /// The nodes.
    pub nodes: Nodes,
    /// The links.
    pub links: Links,
    /// The policy; none where no flow is offered a label.
    pub threshold: Option<Threshold>,
    /// The times of labels.
    pub spans: Spans,
    /// The version of the script.
    pub version: u8,
}

impl Model for Plan {
    ghost use Rattle.world_model.specs.Topology.{Topology as Described};
    ghost use Rattle.topology.specs.Settings.{seen};

    ghost Value = { Described };

    ghost view = { λ p. seen p.nodes p.links p.threshold p.spans p.version };
}

impl Plan {
    /// No nodes and no links; the policy `xy 4 10`, the times 60, 20 and 40, and version 1.
    pub fn open(alloc: Global) -> Result<Plan, OutOfMemory>
        ensures { IfOk result (λ plan. plan ≡ empty_topology) }
    {
        Ok(Plan {
            nodes: Nodes::open(alloc)?,
            links: Links::new(alloc),
            threshold: Some(Threshold {
                packets: 4,
                ticks: WINDOW as u32,
            }),
            spans: Spans {
                lifetime: 60,
                refresh: 20,
                idle: 40,
            },
            version: 1,
        })
    }

    /// The number of the node of this name.
    pub fn named(&self, name: &[u8]) -> Option<NodeId>
        ensures number { result ≡ node_named self.now name.now }
        ensures within { IfSome result (λ node. (1 ≤ node.0) × (node.0 ≤ length self.now.nodes)) }
    {
        self.nodes.named(name)
    }

    /// The other end of the link at a port.
    pub fn peer(&self, node: NodeId, port: PortNo) -> Option<LinkEnd>
        ensures { result ≡ peer_of self.now node port }
    {
        self.links.peer(LinkEnd { node, port })
    }

    /// Adds what a line says.
    pub fn line(&mut self, line: &TopologyLine) -> Result<(), TopologyFault>
        ensures { Takes self.old (after_line self.old line.now) self.new result }
    {
        match line {
            TopologyLine::Node { name, address } => self.node_line(name.as_slice(), *address),
            TopologyLine::Cells { name, cells } => match self.set_cells(name.as_slice(), *cells) {
                Ok(()) => Ok(()),
                Err(refusal) => Err(TopologyFault::Refused(refusal)),
            },
            TopologyLine::Labels { name, port, lo, hi } => {
                self.labels_line(name.as_slice(), *port, *lo, *hi)
            }
            TopologyLine::Link { first, second } => {
                self.link_line(first.0.as_slice(), first.1, second.0.as_slice(), second.1)
            }
            TopologyLine::RouteVia { name, prefix, port } => {
                self.route_line(name.as_slice(), *prefix, Next::Via(*port))
            }
            TopologyLine::RouteLocal { name, prefix } => {
                self.route_line(name.as_slice(), *prefix, Next::Local)
            }
            TopologyLine::PolicyXy { x, y } => {
                self.threshold = Some(Threshold {
                    packets: *x,
                    ticks: *y,
                });
                Ok(())
            }
            TopologyLine::PolicyNever => {
                self.threshold = None;
                Ok(())
            }
            TopologyLine::Timers {
                lifetime,
                refresh,
                idle,
            } => {
                self.spans = Spans {
                    lifetime: *lifetime,
                    refresh: *refresh,
                    idle: *idle,
                };
                Ok(())
            }
            TopologyLine::Version { version } => {
                self.version = *version;
                Ok(())
            }
        }
    }

    /// Why a node of this name can't be added, if it can't.
    pub fn node_refusal(&self, name: &[u8]) -> Option<TopologyRefusal>
        ensures { result ≡ node_refusal self.now name.now }
    {
        if self.named(name).is_some() {
            Some(TopologyRefusal::DuplicateName)
        } else if NODES <= self.nodes.len() {
            Some(TopologyRefusal::TooMany)
        } else {
            None
        }
    }

    fn node_line(&mut self, name: &[u8], address: Addr) -> Result<(), TopologyFault>
        ensures { Takes self.old (after_line self.old (lines.Node name.now address)) self.new result }
    {
        if let Some(refusal) = self.node_refusal(name) {
            return Err(TopologyFault::Refused(refusal));
        }
        self.nodes.push(name, address)?;
        Ok(())
    }

    fn set_cells(&mut self, name: &[u8], cells: u32) -> Result<(), TopologyRefusal>
        ensures { Makes self.old (after_line self.old (lines.Cells name.now cells)) self.new result }
    {
        let Some(node) = self.named(name) else {
            return Err(TopologyRefusal::UnknownName);
        };
        self.nodes.set_cells(node, cells);
        Ok(())
    }

    fn labels_line(
        &mut self,
        name: &[u8],
        port: PortNo,
        lo: u16,
        hi: u16,
    ) -> Result<(), TopologyFault>
        ensures { Takes self.old (after_line self.old (lines.Labels name.now port lo hi)) self.new result }
    {
        let Some(node) = self.named(name) else {
            return Err(UNKNOWN_NAME);
        };
        self.nodes.set_range(node, PortRange { port, lo, hi })?;
        Ok(())
    }

    fn link_refusal(&self, first: LinkEnd, second: LinkEnd) -> Option<TopologyRefusal>
        ensures { result ≡ link_refusal self.now first.port second.port first.node second.node }
    {
        if first.node.0 == second.node.0 {
            Some(TopologyRefusal::SelfLink)
        } else if self.peer(first.node, first.port).is_some()
            || self.peer(second.node, second.port).is_some()
        {
            Some(TopologyRefusal::PortTaken)
        } else if LINKS <= self.links.len() {
            Some(TopologyRefusal::TooMany)
        } else {
            None
        }
    }

    /// Why a line can't be added that links these ports, if it can't.
    pub fn named_link_refusal(
        &self,
        first: &[u8],
        first_port: PortNo,
        second: &[u8],
        second_port: PortNo,
    ) -> Option<TopologyRefusal>
        ensures { result ≡ line_refusal self.now (lines.Link (first.now, first_port) (second.now, second_port)) }
    {
        let Some(first) = self.named(first) else {
            return Some(TopologyRefusal::UnknownName);
        };
        let Some(second) = self.named(second) else {
            return Some(TopologyRefusal::UnknownName);
        };
        let first = LinkEnd {
            node: first,
            port: first_port,
        };
        let second = LinkEnd {
            node: second,
            port: second_port,
        };
        self.link_refusal(first, second)
    }

    fn link_line(
        &mut self,
        first_name: &[u8],
        first_port: PortNo,
        second_name: &[u8],
        second_port: PortNo,
    ) -> Result<(), TopologyFault>
        ensures { Takes self.old (after_line self.old (lines.Link (first_name.now, first_port) (second_name.now, second_port))) self.new result }
    {
        let Some(first) = self.named(first_name) else {
            return Err(UNKNOWN_NAME);
        };
        let Some(second) = self.named(second_name) else {
            return Err(UNKNOWN_NAME);
        };
        let first = LinkEnd {
            node: first,
            port: first_port,
        };
        let second = LinkEnd {
            node: second,
            port: second_port,
        };
        if let Some(refusal) = self.link_refusal(first, second) {
            return Err(TopologyFault::Refused(refusal));
        }
        self.links.push(first, second)?;
        Ok(())
    }

    fn route_refusal(&self, node: NodeId, prefix: Prefix, next: Next) -> Option<TopologyRefusal>
        requires { (1 ≤ node.0) × (node.0 ≤ length self.now.nodes) }
        ensures { result ≡ next_refusal self.now prefix next node }
    {
        if let Next::Via(port) = next {
            if self.peer(node, port).is_none() {
                return Some(TopologyRefusal::NoLink);
            }
        }
        self.nodes.at(node).routes().refusal(prefix)
    }

    /// Why a line can't be added that gives the node of this name a route, if it can't.
    pub fn named_route_refusal(
        &self,
        name: &[u8],
        prefix: Prefix,
        next: Next,
    ) -> Option<TopologyRefusal>
        ensures { result ≡ of_named (λ node. next_refusal self.now prefix next node) (node_named self.now name.now) }
    {
        match self.named(name) {
            Some(node) => self.route_refusal(node, prefix, next),
            None => Some(TopologyRefusal::UnknownName),
        }
    }

    fn route_line(&mut self, name: &[u8], prefix: Prefix, next: Next) -> Result<(), TopologyFault>
        ensures { Takes self.old (after_line self.old (route_line name.now prefix next)) self.new result }
    {
        let Some(node) = self.named(name) else {
            return Err(UNKNOWN_NAME);
        };
        if let Some(refusal) = self.route_refusal(node, prefix, next) {
            return Err(TopologyFault::Refused(refusal));
        }
        self.nodes.add_route(node, prefix, next)?;
        Ok(())
    }
}
