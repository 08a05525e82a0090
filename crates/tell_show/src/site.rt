//! A node: its controller, its switch, its queues.

ghost use Rattle.std.specs.Prelude.{◌≡◌, ◌++◌, ◌≤◌, ◌<◌, length, slice_get, OnOk, Some};
ghost use Rattle.std.specs.List.{flat_map};
ghost use Rattle.world_model.specs.Controller.{ports_of};
ghost use Rattle.world_model.specs.Places.{place_node, queue_at, queue_number};
ghost use Rattle.world_model.specs.World.{Site, site_at};
ghost use Rattle.world.specs.Network.{IsNodeIn, no_notes, world_of};
ghost use Rattle.world.specs.Running.{Runs};
ghost use Rattle.show_text.specs.Shown.{queue_line, queue_lines, site_lines};
ghost use Rattle.tell_show.specs.Held.{port_queue_line};

use crate::shown_controller::ShownController;
use crate::switch::write_lines;
use lab_text::Text;
use net_types::{NodeId, OutOfMemory, Place, PortNo};
use show_text::write_queue;
use topology::Topology;
use world::World;

/// Appends the line of a queue, where it holds cells.
fn write_queue_at<C: ShownController>(
    out: &mut Text,
    names: &Topology,
    world: &World<C>,
    place: Place,
) -> Result<(), OutOfMemory>
    requires runs { Runs C.seen names.now world.now }
    requires node { IsNodeIn world.now (place_node place) }
    requires port { queue_number place ≤ 9 }
    ensures { OnOk result (out.new ≡ out.old ++ queue_line names.now place (length (queue_at (world_of C.seen world.now no_notes) place))) }
{
    write_queue(out, names, place, world.queued(place))
}

/// Appends the lines of the queues at linked ports, ascending.
fn write_port_queues<C: ShownController>(
    out: &mut Text,
    names: &Topology,
    world: &World<C>,
    node: NodeId,
) -> Result<(), OutOfMemory>
    requires runs { Runs C.seen names.now world.now }
    requires node { IsNodeIn world.now node }
    ensures { (site : Site) → site_at (world_of C.seen world.now no_notes) node ≡ Some site → OnOk result (out.new ≡ out.old ++ flat_map (port_queue_line names.now site node) (ports_of site.controller)) }
{
    let controller = world.controller(node);
    for place in 0..controller.ports() {
        let port: PortNo = controller.port_at(place);
        write_queue_at(out, names, world, Place::Out(node, port))?;
    }
    Ok(())
}

/// Appends the lines of the queues of a node, in their order.
fn write_queues<C: ShownController>(
    out: &mut Text,
    names: &Topology,
    world: &World<C>,
    node: NodeId,
) -> Result<(), OutOfMemory>
    requires runs { Runs C.seen names.now world.now }
    requires node { IsNodeIn world.now node }
    ensures { (site : Site) → site_at (world_of C.seen world.now no_notes) node ≡ Some site → OnOk result (out.new ≡ out.old ++ queue_lines names.now site) }
{
    write_queue_at(out, names, world, Place::Down(node))?;
    write_queue_at(out, names, world, Place::Up(node))?;
    write_port_queues(out, names, world, node)
}

/// Appends the lines of a node.
pub(crate) fn write_site<C: ShownController>(
    out: &mut Text,
    names: &Topology,
    world: &World<C>,
    node: NodeId,
) -> Result<(), OutOfMemory>
    requires runs { Runs C.seen names.now world.now }
    requires node { IsNodeIn world.now node }
    ensures { (site : Site) → site_at (world_of C.seen world.now no_notes) node ≡ Some site → OnOk result (out.new ≡ out.old ++ site_lines names.now site) }
{
    world.controller(node).write(out, names, node)?;
    write_lines(out, names, node, world.switch(node))?;
    write_queues(out, names, world, node)
}
