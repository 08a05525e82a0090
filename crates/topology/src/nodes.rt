//! The nodes of a network in the order of their lines, each found by its number and by its name.

ghost use Rattle.std.specs.Prelude.{◌≡◌, ◌+◌, ◌-◌, ◌<◌, ◌≤◌, [], ◌∷◌, ◌++◌, length, None, Some, position, option_copied, slice_get, IfOk, IfSome, OnOk, OnErr};
ghost use Rattle.std.specs.Option.{option_map};
ghost use Rattle.world_model.specs.Lines.{first_of, is_named, route_refusal, with_route};
ghost use Rattle.world_model.specs.Limits.{greatest_nodes};
ghost use Rattle.world_model.specs.Topology.{new_node, node_in};
ghost use Rattle.topology.specs.Indexes.{changed_in};

use crate::node::Node;
use ipv4_forward::Next;
use net_types::{Addr, NodeId, Octets, OutOfMemory, Prefix};
use std::alloc::Global;
use std::marker::Model;
use world_model::PortRange;

/// The most nodes of a network.
pub const NODES: usize = 64;

/// The IP switches of a network (its nodes), at most 64.
#[derive(Drop)]
pub struct Nodes {
    alloc: Global,
    list: Vec<Node>,
}

impl Model for Nodes {
    ghost use Rattle.std.specs.Prelude.{◌≤◌, List, length};
    ghost use Rattle.world_model.specs.Limits.{greatest_nodes};
    ghost use Rattle.world_model.specs.Topology.{Node as Described};

    ghost Value = { List Described };

    ghost view = { λ n. n.list.items };

    ghost invariant = { λ n. length n.list.items ≤ greatest_nodes };
}

impl Nodes {
    /// No nodes, with room for as many as there can be.
    pub fn open(alloc: Global) -> Result<Nodes, OutOfMemory>
        ensures { IfOk result (λ nodes. nodes ≡ []) }
    {
        Ok(Nodes {
            alloc,
            list: Vec::with_capacity(alloc, NODES)?,
        })
    }

    /// How many there are.
    pub fn len(&self) -> usize
        ensures len { result ≡ length self.now }
        ensures few { result ≤ greatest_nodes }
    {
        self.list.len()
    }

    /// The node of this number.
    pub fn at(&self, node: NodeId) -> &Node
        requires { (1 ≤ node.0) × (node.0 ≤ length self.now) }
        ensures { slice_get self.now (node.0 - 1) ≡ Some result.now }
    {
        &self.list[node.0 as usize - 1]
    }

    /// The node of this number, if there is one.
    pub fn get(&self, node: NodeId) -> Option<&Node>
        ensures { option_copied result ≡ node_in self.now node.0 }
    {
        if node.0 == 0 {
            return None;
        }
        self.list.get(node.0 as usize - 1)
    }

    /// The number of the node of this name, if there is one.
    pub fn named(&self, name: &[u8]) -> Option<NodeId>
        ensures number { result ≡ option_map (λ place. record { 0 = place + 1 }) (position (is_named name.now) self.now) }
        ensures within { IfSome result (λ node. (1 ≤ node.0) × (node.0 ≤ length self.now)) }
    {
        match self.place_of(name) {
            Some(place) => Some(NodeId(place as u8 + 1)),
            None => None,
        }
    }

    fn place_of(&self, name: &[u8]) -> Option<usize>
        ensures place { result ≡ position (is_named name.now) self.now }
        ensures within { IfSome result (λ place. (place < length self.now) × (place < greatest_nodes)) }
    {
        self.list.iter().position(|node| node.name() == name)
    }

    /// Adds a node of a new name, without further lines. Want of memory changes nothing.
    pub fn push(&mut self, name: &[u8], address: Addr) -> Result<(), OutOfMemory>
        requires new { position (is_named name.now) self.old ≡ None }
        requires few { length self.old < greatest_nodes }
        ensures ok { OnOk result (self.new ≡ self.old ++ new_node name.now address ∷ []) }
        ensures err { OnErr result (self.new ≡ self.old) }
    {
        let name = Octets::new(owned(self.alloc, name)?);
        self.list.push(Node::new(self.alloc, name, address))?;
        Ok(())
    }

    /// A node's regions get this many slots.
    pub fn set_cells(&mut self, node: NodeId, cells: u32)
        requires { (1 ≤ node.0) × (node.0 ≤ length self.old) }
        ensures { self.new ≡ changed_in (λ n. record n { cells = cells }) self.old node }
    {
        set_cells(&mut self.list, node, cells);
    }

    /// A port gets this range of labels. Want of memory changes nothing.
    pub fn set_range(&mut self, node: NodeId, range: PortRange) -> Result<(), OutOfMemory>
        requires { (1 ≤ node.0) × (node.0 ≤ length self.old) }
        ensures ok { OnOk result (self.new ≡ changed_in (λ n. record n { ranges = n.ranges ++ range ∷ [] }) self.old node) }
        ensures err { OnErr result (self.new ≡ self.old) }
    {
        set_range(&mut self.list, node, range)
    }

    /// A node gets a route that isn't refused. Want of memory changes nothing.
    pub fn add_route(&mut self, node: NodeId, prefix: Prefix, next: Next) -> Result<(), OutOfMemory>
        requires node { (1 ≤ node.0) × (node.0 ≤ length self.old) }
        requires route { IfSome (slice_get self.old (node.0 - 1)) (λ n. first_of (route_refusal n.routes prefix) ≡ None) }
        ensures ok { OnOk result (self.new ≡ changed_in (with_route prefix next) self.old node) }
        ensures err { OnErr result (self.new ≡ self.old) }
    {
        add_route(&mut self.list, node, prefix, next)
    }
}

fn owned(alloc: Global, octets: &[u8]) -> Result<Vec<u8>, OutOfMemory>
    ensures { IfOk result (λ copy. copy.items ≡ octets.now) }
{
    Ok(octets.to_vec(alloc)?)
}

fn set_cells(nodes: &mut Vec<Node>, node: NodeId, cells: u32)
    requires { (1 ≤ node.0) × (node.0 ≤ length nodes.old.items) }
    ensures nodes { nodes.new.items ≡ changed_in (λ n. record n { cells = cells }) nodes.old.items node }
    ensures len { length nodes.new.items ≡ length nodes.old.items }
{
    nodes[node.0 as usize - 1].set_cells(cells);
}

fn set_range(nodes: &mut Vec<Node>, node: NodeId, range: PortRange) -> Result<(), OutOfMemory>
    requires { (1 ≤ node.0) × (node.0 ≤ length nodes.old.items) }
    ensures ok { OnOk result (nodes.new.items ≡ changed_in (λ n. record n { ranges = n.ranges ++ range ∷ [] }) nodes.old.items node) }
    ensures err { OnErr result (nodes.new.items ≡ nodes.old.items) }
    ensures len { length nodes.new.items ≡ length nodes.old.items }
{
    nodes[node.0 as usize - 1].set_range(range)
}

fn add_route(
    nodes: &mut Vec<Node>,
    node: NodeId,
    prefix: Prefix,
    next: Next,
) -> Result<(), OutOfMemory>
    requires node { (1 ≤ node.0) × (node.0 ≤ length nodes.old.items) }
    requires route { IfSome (slice_get nodes.old.items (node.0 - 1)) (λ n. first_of (route_refusal n.routes prefix) ≡ None) }
    ensures ok { OnOk result (nodes.new.items ≡ changed_in (with_route prefix next) nodes.old.items node) }
    ensures err { OnErr result (nodes.new.items ≡ nodes.old.items) }
    ensures len { length nodes.new.items ≡ length nodes.old.items }
{
    nodes[node.0 as usize - 1].add_route(prefix, next)
}
