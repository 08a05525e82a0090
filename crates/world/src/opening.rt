//! The opening of a network.

ghost use Rattle.std.specs.Prelude.{◌≡◌, ◌+◌, ◌*◌, ◌≤◌, ◌∷◌, ◌++◌, [], length, map, IfOk, OnOk, Some};
ghost use Rattle.std.specs.Option.{option_map};
ghost use Rattle.world_model.specs.Conditions.{IsNode, IsTopology};
ghost use Rattle.world_model.specs.Topology.{node_at, ranges_of};
ghost use Rattle.world_model.specs.World.{no_tally, numbers_after, opened, opened_site, with_opened};
ghost use Rattle.world.specs.Network.{no_notes, site_of, world_of};
ghost use Rattle.world.specs.Opening.{IsNew, IsOpening, HasOpened, places_of};
ghost use Rattle.law_world_pace.specs.Running.{ArePeersOf};
ghost use Rattle.world.specs.Running.{Runs};

use crate::node_set::NodeSet;
use crate::site::{STARTS, Site};
use crate::tally::{Tally, Total};
use crate::world::World;
use gsmp_switch::Switch;
use net_types::{NodeId, Numbers, OutOfMemory, PORTS, Place, PortNo};
use node_controller::{NodeController, NodeSetup};
use std::alloc::Global;
use topology::Topology;
use world_model::{LinkEnd, PortRange};

/// The other ends of a node's links, by the numbers of its ports.
fn peers_of(topology: &Topology, node: NodeId) -> [Option<LinkEnd>; PORTS]
    ensures { ArePeersOf topology.now node.0 result }
{
    let mut peers = [None; PORTS];
    for port in 1..PORTS {
        if let Some((node, far)) = topology.peer_of(node, PortNo(port as u8)) {
            peers[port] = Some(LinkEnd { node, port: far });
        }
    }
    peers
}

/// The ports of these ranges.
fn ports_of(alloc: Global, ranges: &[PortRange]) -> Result<Vec<PortNo>, OutOfMemory>
    ensures { IfOk result (λ ports. ports.items ≡ map (λ range. range.port) ranges.now) }
{
    let mut ports = Vec::new(alloc);
    for range in ranges {
        ports.push(range.port)?;
    }
    Ok(ports)
}

/// Opens a node's actors, the controller first. `ranges` are those of its ports.
fn open_site<C: NodeController>(
    alloc: Global,
    topology: &Topology,
    node: NodeId,
    ranges: &[PortRange],
    policy: C::Policy,
    numbers: &mut Numbers,
) -> Result<Site<C>, OutOfMemory>
    requires topology { IsTopology topology.now }
    requires node { IsNode topology.now node }
    requires ranges { option_map (ranges_of topology.now node) (node_at topology.now node) ≡ Some ranges.now }
    requires instances { numbers.old.instances ≤ 1000 }
    requires controls { numbers.old.controls ≡ 0 }
    ensures site { IfOk result (λ s. option_map (λ d. opened_site (C.meaning policy) topology.now node d numbers.old) (node_at topology.now node) ≡ Some (site_of C.seen s)) }
    ensures peers { IfOk result (λ s. ArePeersOf topology.now node.0 s.peers) }
    ensures numbers { OnOk result (option_map (λ d. numbers_after topology.now node d numbers.old) (node_at topology.now node) ≡ Some numbers.new) }
{
    let ports = ports_of(alloc, ranges)?;
    let table = topology.table(node)?;
    let cells = topology.cells(node);
    let setup = NodeSetup {
        node,
        address: topology.address(node),
        ports: ranges,
        cells,
        timers: topology.port_timers(),
    };
    let controller = C::open(alloc, &setup, table, policy, numbers)?;
    match Switch::open(
        alloc,
        node,
        ports.as_slice(),
        cells,
        topology.vpis(),
        numbers,
    ) {
        Ok(switch) => Ok(Site {
            controller,
            switch,
            peers: peers_of(topology, node),
        }),
        Err(error) => {
            controller.abandon();
            Err(error)
        }
    }
}

/// Puts the queues of a node behind those of a round: from the controller, to the controller, and then
/// from the ports of these ranges.
fn push_places(
    round: &mut Vec<Place>,
    node: NodeId,
    ranges: &[PortRange],
) -> Result<(), OutOfMemory>
    ensures { OnOk result (round.new.items ≡ round.old.items ++ places_of node ranges.now) }
{
    round.push(Place::Down(node))?;
    round.push(Place::Up(node))?;
    for range in ranges {
        round.push(Place::Out(node, range.port))?;
    }
    Ok(())
}

impl<C: NodeController> World<C> {
    /// A network of no nodes.
    fn new(alloc: Global) -> World<C>
        ensures { IsNew result }
    {
        World {
            sites: Vec::new(alloc),
            round: Vec::new(alloc),
            starts: [0; STARTS],
            waiting: NodeSet::empty(),
            numbers: Numbers::new(),
            events: 0,
            sent: 0,
            tally: Tally::new(),
            redirects: Total::new(),
            switched: Total::new(),
        }
    }

    /// Opens the next node of a topology.
    fn open_node(
        &mut self,
        alloc: Global,
        topology: &Topology,
        policy: C::Policy,
    ) -> Result<(), OutOfMemory>
        requires node { length self.old.sites.items + 1 ≤ length topology.now.nodes }
        requires nodes { length topology.now.nodes ≤ 64 }
        requires opening { IsOpening topology.now self.old }
        ensures { OnOk result (HasOpened C.seen (C.meaning policy) topology.now self.old self.new) }
    {
        let place = self.sites.len();
        let node = NodeId(place as u8 + 1);
        let ranges = topology.ranges(alloc, node)?;
        self.sites.reserve(1)?;
        let site = open_site(
            alloc,
            topology,
            node,
            ranges.as_slice(),
            policy,
            &mut self.numbers,
        )?;
        self.sites.push_reserved(site);
        push_places(&mut self.round, node, ranges.as_slice())?;
        self.starts[place + 1] = self.round.len();
        self.waiting.insert(place);
        Ok(())
    }

    /// Opens the nodes of a topology.
    fn open_nodes(
        &mut self,
        alloc: Global,
        topology: &Topology,
        policy: C::Policy,
    ) -> Result<(), OutOfMemory>
        requires { IsNew self.old }
        ensures world { OnOk result (world_of C.seen self.new no_notes ≡ opened (C.meaning policy) topology.now) }
        ensures runs { OnOk result (Runs C.seen topology.now self.new) }
    {
        let nodes = topology.nodes();
        for _place in 0..nodes {
            self.open_node(alloc, topology, policy)?;
        }
        Ok(())
    }

    /// The network of a topology before its first event. Each node's region of its controller and that of
    /// its switch are taken here.
    pub fn open(
        alloc: Global,
        topology: &Topology,
        policy: C::Policy,
    ) -> Result<World<C>, OutOfMemory>
        ensures world { IfOk result (λ w. world_of C.seen w no_notes ≡ opened (C.meaning policy) topology.now) }
        ensures runs { IfOk result (λ w. Runs C.seen topology.now w) }
    {
        let mut world = World::new(alloc);
        match world.open_nodes(alloc, topology, policy) {
            Ok(()) => Ok(world),
            Err(error) => {
                world.abandon();
                Err(error)
            }
        }
    }
}
