//! What lines say of one node.

ghost use Rattle.std.specs.Prelude.{◌≡◌, [], ◌∷◌, ◌++◌, ◌==◌, find, reverse, None, IfOk, OnOk, OnErr};
ghost use Rattle.world_model.specs.Lines.{first_of, route_refusal, with_route};
ghost use Rattle.world_model.specs.Topology.{new_node, range_among};

use crate::routes::RouteList;
use ipv4_forward::Next;
use net_types::{Addr, LEAST_LABEL_VCI, Octets, OutOfMemory, PortNo, Prefix};
use std::alloc::Global;
use std::marker::Model;
use world_model::PortRange;

/// The slots of a region where no line says how many.
const CELLS: u32 = 1024;

/// The number of the least label of a port where no line says which: the least that there is.
const LEAST_LABEL: u16 = LEAST_LABEL_VCI;

/// The number of the greatest label of a port where no line says which.
const GREATEST_LABEL: u16 = 95;

/// The configuration of an IP switch (a node), with its static routes.
#[derive(Drop)]
pub struct Node {
    name: Octets,
    address: Addr,
    cells: u32,
    ranges: Vec<PortRange>,
    routes: RouteList,
}

impl Model for Node {
    ghost use Rattle.world_model.specs.Topology.{Node as Described};

    ghost Value = { Described };

    ghost view = { λ n. record { name = n.name; address = n.address; cells = n.cells; ranges = n.ranges.items; routes = n.routes } };
}

impl Node {
    /// A node without further lines.
    pub fn new(alloc: Global, name: Octets, address: Addr) -> Node
        ensures { result ≡ new_node name address }
    {
        Node {
            name,
            address,
            cells: CELLS,
            ranges: Vec::new(alloc),
            routes: RouteList::new(alloc),
        }
    }

    /// The octets of its name.
    pub fn name(&self) -> &[u8]
        ensures { result.now ≡ self.now.name }
    {
        self.name.as_slice()
    }

    /// Its address.
    pub fn address(&self) -> Addr
        ensures { result ≡ self.now.address }
    {
        self.address
    }

    /// How many cells each of its two regions holds.
    pub fn cells(&self) -> u32
        ensures { result ≡ self.now.cells }
    {
        self.cells
    }

    /// The range of a port: the one that the last line of it gave, or 32 to 95.
    pub fn range(&self, port: PortNo) -> PortRange
        ensures { result ≡ range_among self.now.ranges port }
    {
        range_among(self.ranges.as_slice(), port)
    }

    /// Its routes.
    pub fn routes(&self) -> &RouteList
        ensures { result.now ≡ self.now.routes }
    {
        &self.routes
    }

    /// Its regions get this many slots.
    pub fn set_cells(&mut self, cells: u32)
        ensures { self.new ≡ record self.old { cells = cells } }
    {
        self.cells = cells;
    }

    /// A port gets this range. Want of memory changes nothing.
    pub fn set_range(&mut self, range: PortRange) -> Result<(), OutOfMemory>
        ensures ok { OnOk result (self.new ≡ record self.old { ranges = self.old.ranges ++ range ∷ [] }) }
        ensures err { OnErr result (self.new ≡ self.old) }
    {
        self.ranges.push(range)?;
        Ok(())
    }

    /// Adds a route that isn't refused. Want of memory changes nothing.
    pub fn add_route(&mut self, prefix: Prefix, next: Next) -> Result<(), OutOfMemory>
        requires { first_of (route_refusal self.old.routes prefix) ≡ None }
        ensures ok { OnOk result (self.new ≡ with_route prefix next self.old) }
        ensures err { OnErr result (self.new ≡ self.old) }
    {
        self.routes.add(prefix, next)
    }
}

// The last line of a port counts.
fn last_range(ranges: &[PortRange], port: PortNo) -> Option<PortRange>
    ensures { result ≡ find (λ range. range.port.0 == port.0) (reverse ranges.now) }
{
    let mut last = None;
    for range in ranges {
        if range.port.0 == port.0 {
            last = Some(*range);
        }
    }
    last
}

fn range_among(ranges: &[PortRange], port: PortNo) -> PortRange
    ensures { result ≡ range_among ranges.now port }
{
    match last_range(ranges, port) {
        Some(range) => range,
        None => PortRange {
            port,
            lo: LEAST_LABEL,
            hi: GREATEST_LABEL,
        },
    }
}
