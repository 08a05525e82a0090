//! How many cells stand in the queues of an actor.

ghost use Rattle.std.specs.Prelude.{◌≡◌, ◌≤◌, ◌++◌, [], flat_map, length, slice_index_or, if◌then◌else◌, OnOk};
ghost use Rattle.net_types.specs.declared.node.PortNo.{PortNo as Number};
ghost use Rattle.net_types.specs.declared.node.Place.TheVariants.{Out};
ghost use Rattle.world_model.specs.Lines.{is_linked};
ghost use Rattle.world_model.specs.Places.{place_node, queue_at, queue_number};
ghost use Rattle.world_model.specs.Topology.{Topology as Described};
ghost use Rattle.world.specs.Network.{IsNodeIn, no_notes, world_of};
ghost use Rattle.world.specs.Running.{Runs};
ghost use Rattle.tell_passing.specs.Lengths.{AreLengths, all_behind, behind, behind_at, link_ports};
ghost use Rattle.tell_passing.specs.Look.{IsActorIn, IsInRun, IsOwnerIn};

use net_types::{NodeId, OutOfMemory, PORTS, Place, PortNo};
use telling_model::{Reached, Standing};
use world::{NodeController, World};

/// The queue lengths of an actor, in cells.
#[derive(Clone, Copy)]
pub enum Lengths {
    /// There is no actor.
    Nobody,
    /// The controller of a node, and how many waited for its switch.
    Controller(NodeId, usize),
    /// The switch of a node, and how many waited at its ports, by their numbers.
    Switch(NodeId, [usize; PORTS]),
}

impl Lengths {
    /// Looks at the queues of an actor.
    pub fn look<C: NodeController>(world: &World<C>, actor: Reached) -> Lengths
        requires runs { IsInRun C.seen world.now }
        requires actor { IsActorIn world.now actor }
        ensures { AreLengths (queue_at (world_of C.seen world.now no_notes)) actor result }
    {
        match actor {
            Reached::Nobody => Lengths::Nobody,
            Reached::Controller(node) => {
                Lengths::Controller(node, world.queued(Place::Down(node)))
            }
            Reached::Switch(node) => Lengths::Switch(node, waiting(world, node)),
        }
    }

    /// Appends the cells that stand behind so many, queue by queue in the order of a round.
    pub fn put<C: NodeController>(
        &self,
        world: &World<C>,
        out: &mut Vec<Standing>,
    ) -> Result<(), OutOfMemory>
        requires runs { IsInRun C.seen world.now }
        requires owner { IsOwnerIn world.now self.now }
        ensures { (topology : Described) → Runs C.seen topology world.now → OnOk result (out.new.items ≡ out.old.items ++ all_behind topology (world_of C.seen world.now no_notes) self.now) }
    {
        match self {
            Lengths::Nobody => Ok(()),
            Lengths::Controller(node, left) => put_queue(world, Place::Down(*node), *left, out),
            Lengths::Switch(node, left) => {
                put_queue(world, Place::Up(*node), left[0], out)?;
                put_ports(world, *node, left, out)
            }
        }
    }
}

/// How many cells wait at each port of a switch.
fn waiting<C: NodeController>(world: &World<C>, node: NodeId) -> [usize; PORTS]
    requires runs { IsInRun C.seen world.now }
    requires node { IsNodeIn world.now node }
    ensures { (port : Number) → port.0 ≤ 8 → slice_index_or result port.0 0 ≡ length (queue_at (world_of C.seen world.now no_notes) (Out node port)) }
{
    let mut left = [0; PORTS];
    for port in 0..PORTS {
        left[port] = world.queued(Place::Out(node, PortNo(port as u8)));
    }
    left
}

/// Appends the cells of a queue behind so many.
fn put_queue<C: NodeController>(
    world: &World<C>,
    place: Place,
    left: usize,
    out: &mut Vec<Standing>,
) -> Result<(), OutOfMemory>
    requires runs { IsInRun C.seen world.now }
    requires node { IsNodeIn world.now (place_node place) }
    requires port { queue_number place ≤ 9 }
    ensures { OnOk result (out.new.items ≡ out.old.items ++ behind (world_of C.seen world.now no_notes) left place) }
{
    for index in left..world.queued(place) {
        if let Some(cell) = world.cell(place, index) {
            out.push(Standing { place, cell })?;
        }
    }
    Ok(())
}

/// Appends the cells of a port behind so many, if a link is there.
fn put_port<C: NodeController>(
    world: &World<C>,
    node: NodeId,
    port: PortNo,
    left: usize,
    out: &mut Vec<Standing>,
) -> Result<(), OutOfMemory>
    requires runs { IsInRun C.seen world.now }
    requires node { IsNodeIn world.now node }
    requires port { (1 ≤ port.0) × (port.0 ≤ 8) }
    ensures { (topology : Described) → Runs C.seen topology world.now → OnOk result (out.new.items ≡ out.old.items ++ (if is_linked topology node port then behind (world_of C.seen world.now no_notes) left (Out node port) else [])) }
{
    match world.far_end(node, port) {
        Some(_far) => put_queue(world, Place::Out(node, port), left, out),
        None => Ok(()),
    }
}

/// Appends the cells of each linked port behind so many, by the numbers of the ports.
fn put_ports<C: NodeController>(
    world: &World<C>,
    node: NodeId,
    left: &[usize; PORTS],
    out: &mut Vec<Standing>,
) -> Result<(), OutOfMemory>
    requires runs { IsInRun C.seen world.now }
    requires node { IsNodeIn world.now node }
    ensures { (topology : Described) → Runs C.seen topology world.now → OnOk result (out.new.items ≡ out.old.items ++ flat_map (behind_at topology (world_of C.seen world.now no_notes) node left.now) link_ports) }
{
    for number in 1..PORTS {
        put_port(world, node, PortNo(number as u8), left[number], out)?;
    }
    Ok(())
}
