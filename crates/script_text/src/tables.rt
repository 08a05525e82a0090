//! The routes of each node, as the route lines so far set them.

ghost use Rattle.std.specs.Prelude.{◌≡◌, ◌-◌, ◌≤◌, length, None, IfOk, OnOk, OnErr, slice_set};
ghost use Rattle.ipv4_forward.specs.Change.{changed, change_fault};
ghost use Rattle.script_model.specs.State.{table_among, opening_tables};

use ipv4_forward::RouteChange;
use net_types::{NodeId, OutOfMemory};
use std::alloc::Global;
use std::marker::Model;
use topology::{RouteList, Topology};

/// The routing tables of all nodes: a list of routes for each.
#[derive(Drop)]
pub struct Tables {
    list: Vec<RouteList>,
}

impl Model for Tables {
    ghost use Rattle.std.specs.Prelude.{List};
    ghost use Rattle.ipv4_forward.specs.declared.table.Route.{Route};

    ghost Value = { List (List Route) };

    ghost view = { λ t. t.list.items };
}

impl Tables {
    /// The routes that the lines of the topology give.
    pub fn opening(alloc: Global, topology: &Topology) -> Result<Tables, OutOfMemory>
        ensures { IfOk result (λ tables. tables ≡ opening_tables topology.now) }
    {
        let mut list = Vec::new(alloc);
        for place in 0..topology.nodes() {
            let node = NodeId(place as u8 + 1);
            list.push(topology.route_list(node).copied()?)?;
        }
        Ok(Tables { list })
    }

    /// The routes of a node.
    pub fn of(&self, node: NodeId) -> &RouteList
        requires { (1 ≤ node.0) × (node.0 ≤ length self.now) }
        ensures { result.now ≡ table_among self.now node }
    {
        &self.list[node.0 as usize - 1]
    }

    /// Makes a change that isn't refused. Want of memory changes nothing.
    pub fn change(&mut self, node: NodeId, change: &RouteChange) -> Result<(), OutOfMemory>
        requires node { (1 ≤ node.0) × (node.0 ≤ length self.old) }
        requires can { change_fault (table_among self.old node) change.now ≡ None }
        ensures ok { OnOk result (self.new ≡ slice_set self.old (node.0 - 1) (changed (table_among self.old node) change.now)) }
        ensures err { OnErr result (self.new ≡ self.old) }
        ensures len { length self.new ≡ length self.old }
    {
        change_in(&mut self.list, node, change)
    }
}

fn change_in(
    tables: &mut Vec<RouteList>,
    node: NodeId,
    change: &RouteChange,
) -> Result<(), OutOfMemory>
    requires node { (1 ≤ node.0) × (node.0 ≤ length tables.old.items) }
    requires can { change_fault (table_among tables.old.items node) change.now ≡ None }
    ensures ok { OnOk result (tables.new.items ≡ slice_set tables.old.items (node.0 - 1) (changed (table_among tables.old.items node) change.now)) }
    ensures err { OnErr result (tables.new.items ≡ tables.old.items) }
    ensures len { length tables.new.items ≡ length tables.old.items }
{
    tables[node.0 as usize - 1].change(change)
}
