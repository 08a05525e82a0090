//! The routing tables of all nodes.

ghost use Rattle.std.specs.Prelude.{◌≡◌, ◌-◌, ◌≤◌, length, None, IfOk, slice_set};
ghost use Rattle.ipv4_forward.specs.Change.{changed, change_fault};
ghost use Rattle.script_model.specs.State.{table_among, opening_tables};

use ipv4_forward::{RouteChange, Table};
use net_types::{NodeId, OutOfMemory};
use std::alloc::Global;
use std::marker::Model;
use topology::Topology;

/// The routing tables of all nodes, in their order.
#[derive(Drop)]
pub struct Tables {
    list: Vec<Table>,
}

impl Model for Tables {
    ghost use Rattle.std.specs.Prelude.{List};
    ghost use Rattle.ipv4_forward.specs.declared.table.Route.{Route};

    ghost Value = { List (List Route) };

    ghost view = { λ t. t.list.items };
}

fn change_in(tables: &mut Vec<Table>, node: NodeId, change: &RouteChange)
    requires node { (1 ≤ node.0) × (node.0 ≤ length tables.old.items) }
    requires can { change_fault (table_among tables.old.items node) change.now ≡ None }
    ensures { tables.new.items ≡ slice_set tables.old.items (node.0 - 1) (changed (table_among tables.old.items node) change.now) }
{
    tables[node.0 as usize - 1].apply(change).unwrap();
}

impl Tables {
    /// The routes that the lines of the topology give.
    pub fn opening(alloc: Global, topology: &Topology) -> Result<Tables, OutOfMemory>
        ensures { IfOk result (λ tables. tables ≡ opening_tables topology.now) }
    {
        let mut list = Vec::new(alloc);
        for place in 0..topology.nodes() {
            let node = NodeId(place as u8 + 1);
            list.push(topology.table(node)?)?;
        }
        Ok(Tables { list })
    }

    /// The table of a node.
    pub fn of(&self, node: NodeId) -> &Table
        requires { (1 ≤ node.0) × (node.0 ≤ length self.now) }
        ensures { result.now ≡ table_among self.now node }
    {
        &self.list[node.0 as usize - 1]
    }

    /// Makes a change in a node's table, which it accepts.
    pub fn change(&mut self, node: NodeId, change: &RouteChange)
        requires node { (1 ≤ node.0) × (node.0 ≤ length self.old) }
        requires can { change_fault (table_among self.old node) change.now ≡ None }
        ensures { self.new ≡ slice_set self.old (node.0 - 1) (changed (table_among self.old node) change.now) }
    {
        change_in(&mut self.list, node, change);
    }
}
